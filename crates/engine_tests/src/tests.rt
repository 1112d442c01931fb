//! What no clause says: that the call succeeds, on worked runs and on tables of words, texts and scenarios, with each read and each write
//! failing in turn.
ghost use Rattle.std.specs.Prelude.{◌≤◌, IsTrue, IfOk, map};
ghost use Rattle.sd_outside.specs.Texts.{text_of, names_differ};

use sd_engine::{Status, serve};
use sd_outside::{MemShelf, MemSink};
use std::alloc::{AllocError, Global};
use std::test::Fail;

const DRIVER: &str = "int init(void) { printd(7); return 0; }";

/// One call a row: the words, the scenario `s`, the driver's text `d` (`@` is `DRIVER`), the number of the read that fails (none where it is
/// 0), the status, what is written, and a second driver's text `e`, if there is one. `~` stands for a line feed.
const CALLS: &str = "// a driver is loaded, prints and ends
run s d|load d1 1~finish 1~|@|0|Done|d1 loaded~d1 t1 print 7~d1 t1 done 0~end 2~
// a scenario tells what does not apply
run s d|finish 1~load d1 1~load d1 1~finish 1|@|0|Done|t1 idle~d1 loaded~d1 load refused: loaded~d1 t1 print 7~d1 t1 done 0~end 2~
// words that are no command write nothing
|load d1 1~|@|0|Usage|
run|load d1 1~|@|0|Usage|
run s|load d1 1~|@|0|Usage|
run s s|load d1 1~|@|0|Usage|
run  d|load d1 1~|@|0|Usage|
run s -d|load d1 1~|@|0|Usage|
walk s d|load d1 1~|@|0|Usage|
run s d d|load d1 1~|@|0|Usage|
check --count|load d1 1~|@|0|Usage|
check d --steps 4|load d1 1~|@|0|Usage|
run --steps 10000001 s d|load d1 1~|@|0|Usage|
run s d --steps|load d1 1~|@|0|Usage|
check |load d1 1~|@|0|Usage|
check s s|||0|Usage|
// a text without an item has no `init`
run s d|load d1 1~finish 1~||0|Done|d1 load refused: no init~t1 idle~end 0~
run s d|| /* nothing */ |0|Done|end 0~
// sums wrap, and empty statements are steps
run s d|load d1 1~finish 1~|int init(void) { ; printd(1 + 0x2 + 03l); ; return 2147483647 + 2; }|0|Done|d1 loaded~d1 t1 print 6~d1 t1 done -2147483647~end 4~
// a run refuses a text by line and cause, as a check does
run s d||int init(void) {~  return 2147483648; }|0|Refused|refused 1 2 word~
run s d||int init(void) { return 0; }~~}|0|Refused|refused 1 3 item~
run s d||struct s { int *count(n) p; };|0|Refused|refused 1 1 type~
run s d||int *p;~int f(void) { p = (int *)5; return 0; }|0|Refused|refused 1 2 rule~
// a function `init` with a parameter or another result is none
run s d|load d1 1~finish 1|int init(int n) { return n; }|0|Done|d1 load refused: no init~t1 idle~end 0~
run s d|load d1 1~finish 1|void init(void) { ; }|0|Done|d1 load refused: no init~t1 idle~end 0~
// a pointer between two others, at the end of what they bound
run s d|load d1 1~finish 1|int a[4];~int init(void) {~  int *lo;~  int *hi;~  int *bound(lo, hi) p;~  lo = a;~  hi = a + 4;~  p = hi;~  printd(1);~  printd(*p);~  return 0;~}|0|DriverFailed|d1 loaded~d1 t1 print 1~d1 t1 failed Bound 10~d1 undo block 16~tables~clock 0~end 5~
// a count that a buffer does not have, at a call
run s d|load d1 1~finish 1|int f(int *count(n) p, int n) { return 1; }~int init(void) { int *q; int r; q = kalloc(int, 4); r = f(q, 4); printd(r); r = f(q, 0); printd(r); r = f(q, -1); return 0; }|0|DriverFailed|d1 loaded~d1 t1 print 1~d1 t1 print 1~d1 t1 failed Bound 2~d1 undo block 16~tables~clock 0~end 8~
run s d|load d1 1~finish 1|int f(int *count(n) p, int n) { return 1; }~int init(void) { int *q; int r; q = kalloc(int, 4); r = f(q, 4); printd(r); r = f(q, 0); printd(r); r = f(q, 5); return 0; }|0|DriverFailed|d1 loaded~d1 t1 print 1~d1 t1 print 1~d1 t1 failed Bound 2~d1 undo block 16~tables~clock 0~end 8~
// a string is read up to its end, and not moved past it
run s d|load d1 1~finish 1|int init(void) { char *nullterm s; int c; s = \"ab\"; c = *s; printd(c); s = s + 1; s = s + 1; s = s + 1; return 0; }|0|DriverFailed|d1 loaded~d1 t1 print 97~d1 t1 failed Term 1~d1 undo block 16~tables~clock 0~end 6~
// a length may be lowered, and not raised under a live buffer
run s d|load d1 1~finish 1|struct s { int len; int *count(len) buf; };~struct s g;~int init(void) {~  int *q;~  q = kalloc(int, 8);~  g.len = 8;~  g.buf = q;~  g.len = 4;~  printd(g.len);~  g.buf = 0;~  g.len = 8;~  g.buf = q;~  g.len = 9;~  return 0;~}|0|DriverFailed|d1 loaded~d1 t1 print 4~d1 t1 failed Change 13~d1 undo block 32~d1 undo block 16~tables~clock 0~end 9~
// a string may be shortened, and its end not written over
run s d|load d1 1~finish 1|int init(void) {~  char *nullterm s;~  s = \"ab\";~  *s = 'x';~  prints(s);~  s = s + 1;~  s = s + 1;~  *s = 0;~  printd(1);~  *s = 'y';~  return 0;~}|0|DriverFailed|d1 loaded~d1 t1 text \"xb\"~d1 t1 print 1~d1 t1 failed Term 10~d1 undo block 16~tables~clock 0~end 8~
";

/// Runs of one driver that fails, or that the kernel answers.
const FAILURES: &str = "// a tag changes over a union that is zero alone
run s d|load d1 1~finish 1|struct v { int t; union { int n when(t == 1); int *safe p when(t == 2); } u; };~struct v g;~int init(void) {~  g.t = 1;~  g.u.n = 5;~  zero(g.u);~  g.t = 2;~  g.t = 1;~  g.u.n = 6;~  g.t = 2;~  return 0;~}|0|DriverFailed|d1 loaded~d1 t1 failed Change 10~d1 undo block 16~tables~clock 0~end 7~
run s d|load d1 1~finish 1|struct v { int t; union { int n when(t == 1); int m when(t == 2); } u; };~struct v g;~int init(void) { g.t = 1;~  g.u.m = 5; return 0; }|0|DriverFailed|d1 loaded~d1 t1 failed Tag 4~d1 undo block 16~tables~clock 0~end 2~
// nothing wraps in a bound
run s d|load d1 1~finish 1|int a[4];~int init(void) { int *p; int n; p = a; n = 2147483647; p = p + n; return 0; }|0|DriverFailed|d1 loaded~d1 t1 failed Bound 2~d1 undo block 16~tables~clock 0~end 3~
// a block that was given back stays granted, and is not given back again
run s d|load d1 1~finish 1|int init(void) { int *p; int *q; int x; p = kalloc(int, 1); *p = 6; kfree(p); x = *p; printd(x); q = kalloc(int, 1); kfree(p); return 0; }|0|DriverFailed|d1 loaded~d1 t1 print 6~d1 t1 failed Free 1~d1 undo block 32~d1 undo free 16~d1 undo block 16~tables~clock 0~end 7~
// a block as large as the arena, and one more byte
run s d|load d1 1~finish 1|int init(void) { char *p; p = kalloc(char, 1048560); if (p) printd(1); p = kalloc(char, 1); if (!p) printd(2); return 0; }|0|Done|d1 loaded~d1 t1 print 1~d1 t1 print 2~d1 t1 done 0~end 7~
// a null pointer is not followed, and nothing is divided by 0
run s d|load d1 1~finish 1|int init(void) { int *p;~  return *p; }|0|DriverFailed|d1 loaded~d1 t1 failed Null 2~tables~clock 0~end 1~
run s d|load d1 1~finish 1|int init(void) { int z; z = -2147483647 - 1; printd(z / -1); printd(z % -1); printd(1 << 33);~  return 1 / (z - z); }|0|DriverFailed|d1 loaded~d1 t1 print -2147483648~d1 t1 print 0~d1 t1 print 2~d1 t1 failed Div 2~tables~clock 0~end 5~
// a call that never returns has no 65th frame, and a loop that never ends is stopped
run s d|load d1 1~finish 1|int f(int n) {~  int r; r = f(n + 1); return r; }~int init(void) { int r; r = f(0); return r; }|0|DriverFailed|d1 loaded~d1 t1 failed Stack 2~tables~clock 0~end 64~
run s d|load d1 1~finish 1|int init(void) { while (1) { ; } return 0; }|0|Done|d1 loaded~bound 100000~
// kernel calls: ports, a lock that is left held, one that is taken twice, a mask, the clock, a parameter
run s d|load d1 1~finish 1|int init(void) { int r; r = request_ports(16, 4); printd(r); r = request_ports(18, 1); printd(r); r = release_ports(16, 3); printd(r); r = port_in(20); return 0; }|0|DriverFailed|d1 loaded~d1 t1 print 0~d1 t1 print -16~d1 t1 print -22~d1 t1 failed Port 1~d1 undo ports 16 4~tables~clock 0~end 7~
run s d|load d1 1~finish 1|int init(void) { lock(3); return 0; }|0|DriverFailed|d1 loaded~d1 t1 failed Held 1~d1 undo lock 3~tables~clock 0~end 2~
run s d|load d1 1~finish 1|int init(void) { lock(3); lock(3); return 0; }|0|DriverFailed|d1 loaded~d1 t1 failed Relock 1~d1 undo lock 3~tables~clock 0~end 2~
run s d|load d1 1~finish 1|int init(void) { mask(); return 0; }|0|DriverFailed|d1 loaded~d1 t1 failed Masked 1~d1 undo mask 1~tables~clock 0~end 2~
run s d|load d1 1~finish 1|void h(int l) { return; }~int init(void) { int r; r = request_line(5, h); printd(r); r = request_line(5, h); printd(r); r = set_param(7, 9); r = get_param(7); printd(r); r = now(); printd(r); r = request_ports(8, 1); port_out(8, 65); return r; }|0|Done|d1 loaded~d1 t1 print 0~d1 t1 print -16~d1 t1 print 9~d1 t1 print 0~d1 t1 out 8 65~d1 t1 done 0~end 12~
// behind a failure the run goes on
run s d|load d1 1~finish 1~load d1 1~finish 1|int init(void) { int z; return 1 / z; }|0|DriverFailed|d1 loaded~d1 t1 failed Div 1~tables~clock 0~d1 load refused: failed~t1 idle~end 1~
";

/// Checks, scenarios and reads, a call a row.
const REFUSALS: &str = "// a check refuses a text by line and cause
check d||int f(void) { return 1 @ 2; }|0|Refused|refused 1 1 word~
check d||~int a234567890123456789012345678901234567890123456789012345678901234;|0|Refused|refused 1 2 limit~
check d||int f(void) { return 1 }|0|Refused|refused 1 1 item~
check d||int a; int a;~char *nullterm s;|0|Refused|refused 1 1 type~
// strings, unions and handlers are accepted where the rules derive them
check d||char *nullterm name;~int init(void) { name = \"ring\"; prints(name + 1); return *name; }|0|Done|accepted 1~
check d||struct m { int kind; union { int n when (kind == 1); int *p when (kind == 2); } u; }; struct m g;~int f(void) { zero(g.u); g.kind = 1; g.u.n = 5; return g.u.n; }|0|Done|accepted 1~
check d||void tick(int a) { printd(a); }~int f(void) { int r; r = set_timer(1, 10, tick, 7); return r; }|0|Done|accepted 1~
check d||struct s {~union { int a when (t == 1); } u; int t; };|0|Refused|refused 1 2 type~
check d||char *nullterm s;~int f(void) {~return s[2]; }|0|Refused|refused 1 3 rule~
check d||int h(int a) { return a; }~int f(void) { int r;~r = set_timer(1, 1, h, 0); return r; }|0|Refused|refused 1 3 rule~
check d||int a;~void lock(int k);|0|Refused|refused 1 2 rule~
check d||void f(void) {~now(1); }|0|Refused|refused 1 2 rule~
check d||int a;~int a;~void *f(void);|0|Refused|refused 1 2 type~
check d||int f(void) {~  int n; int *q; q = &n; return 0; }|0|Refused|refused 1 2 rule~
check d||int g(void) {~f(1, 2);~return 0; }~int f(int a,~int a) { return 0; }|0|Refused|refused 1 2 rule~
// the first refused file is named
check s d||@|0|Done|accepted 1~accepted 2~
check s d|int init(void) { return 0; }|int x|0|Refused|refused 2 1 item~
check s d|int x|int @|0|Refused|refused 1 1 item~
// blank lines, comments and blanks around words are none of a scenario's words
run s d| load d1 1 # twice~~\tfinish 1\r~|@|0|Done|d1 loaded~d1 t1 print 7~d1 t1 done 0~end 2~
// a scenario is refused by its first line that has no reading, behind all drivers' texts
run s d|load d1 1~frob~|@|0|BadScenario|scenario 2~
run s d|load d1 1~load d2 1~|@|0|BadScenario|scenario 2~
run s d|finish 1finish 1|@|0|BadScenario|scenario 1~
run s d|load d1 1 restarts 1|@|0|BadScenario|scenario 1~
run s d|frob|int x|0|Refused|refused 1 1 item~
// a read that fails writes nothing
run s d|load d1 1~finish 1~|@|1|ReadFault|
run s d|load d1 1~finish 1~|@|2|ReadFault|
run s d|load d1 1~finish 1~|@|3|ReadFault|
run s d|load d1 1~finish 1~|@|4|ReadFault|
check x|load d1 1~|@|0|ReadFault|
";

/// Runs of several drivers and tasks, with interrupts, work, failures, restarts and bounds.
const RUNS: &str = "// two drivers: the first fails, and the second goes on with its line
run s d e|load d1 1~finish 1~load d2 2~finish 2~call d1 1 bad~finish 1~irq 5|void h(int l) { return; }~int init(void) { int r; r = request_line(5, h); r = free_line(5); printd(r); return 0; }~int bad(void) { int z; z = 1 / z; return 0; }|0|DriverFailed|d1 loaded~d1 t1 print 0~d1 t1 done 0~d2 loaded~d2 t2 print 0~d2 t2 done 0~d1 t1 failed Div 3~tables~line 5 d2 h~clock 0~irq 5 d2~d2 t0 print 5~d2 t0 done~end 10~|void h(int l) { printd(l); return; }~int init(void) { int r; r = request_line(5, h); printd(r); return 0; }
// two tasks of one driver
run s d|load d1 1~finish 1~call d1 1 get~call d1 2 cut~run 1 3~run 2 1~run 1 3~run 2 2~finish 1|struct s { int len; int *count(len) buf; };~struct s g;~int init(void) {~  int *q;~  q = kalloc(int, 4);~  g.len = 4;~  g.buf = q;~  return 0;~}~int get(void) {~  int i;~  int x;~  i = 0;~  while (i < 4) {~    x = g.buf[i];~    printd(x);~    i = i + 1;~  }~  return 0;~}~int cut(void) {~  g.buf[1] = 9;~  g.len = 1;~  return 0;~}|0|DriverFailed|d1 loaded~d1 t1 done 0~d1 t1 print 0~d1 t2 done 0~d1 t1 failed Bound 15~d1 undo block 32~d1 undo block 16~tables~clock 0~end 14~
// an interrupt waits under a mask, until the driver fails that holds it
run s d e|load d2 2~finish 2~load d1 1~run 1 1~irq 5~finish 1|int init(void) { int z; mask(); z = 1 / z; return 0; }|0|DriverFailed|d2 loaded~d2 t2 print 0~d2 t2 done 0~d1 loaded~irq 5 waits~d1 t1 failed Div 1~d1 undo mask 1~tables~line 5 d2 h~clock 0~irq 5 d2~d2 t0 print 5~d2 t0 done~end 7~|void h(int l) { printd(l); return; }~int init(void) { int r; r = request_line(5, h); printd(r); return 0; }
// a lock is handed on, by a failure and by its holder
run s d e|load d1 1~run 1 1~load d2 2~finish 2~finish 1~finish 2|int init(void) { int z; lock(3); z = 1 / z; return 0; }|0|DriverFailed|d1 loaded~d2 loaded~d2 t2 blocked 3~d1 t1 failed Div 1~d1 undo lock 3~tables~clock 0~d2 t2 print 3~d2 t2 done 0~end 7~|int init(void) { lock(3); printd(3); unlock(3); return 0; }
run s d e|load d1 1~run 1 1~load d2 2~run 2 5~finish 1~run 2 5|int init(void) { lock(3); printd(1); unlock(3); return 0; }|0|Done|d1 loaded~d2 loaded~d2 t2 blocked 3~d1 t1 print 1~d1 t1 done 0~d2 t2 print 3~d2 t2 done 0~end 9~|int init(void) { lock(3); printd(3); unlock(3); return 0; }
// a bound within a handler, and one of no step
run --steps 4 s d|load d1 1~finish 1~irq 5|void h(int l) { printd(l); return; }~int init(void) { int r; r = request_line(5, h); printd(r); return 0; }|0|Done|d1 loaded~d1 t1 print 0~d1 t1 done 0~irq 5 d1~d1 t0 print 5~bound 4~
run s d --steps=0|load d1 1~finish 1~irq 5|void h(int l) { printd(l); return; }~int init(void) { int r; r = request_line(5, h); printd(r); return 0; }|0|Done|d1 loaded~bound 0~
// work, parameters and holds of two drivers
run s d e|load d2 2~finish 2~load d1 1~finish 1~show~call d1 1 bad~finish 1~work 1|int init(void) { int r; r = set_param(7, 1); r = hold(2); return 0; }~int bad(void) { int z; z = 1 % z; return 0; }|0|DriverFailed|d2 loaded~d2 t2 done 0~d1 loaded~d1 t1 done 0~tables~param 7 1 d1~hold 2 2~work d2 w 8~clock 0~d1 t1 failed Div 2~d1 undo hold 2~d1 undo param 7~tables~param 7 2 d2~hold 2 1~work d2 w 8~clock 0~work d2~d2 t0 print 8~d2 t0 done~end 10~|void w(int x) { printd(x); return; }~int init(void) { int r; r = set_param(7, 2); r = hold(2); r = queue_work(w, 8); return 0; }
// what does not apply is told
run s d|load d1 1~finish 1~load d1 1~call d1 2 nope~run 3 5~unload d1~call d1 1 init|@|0|Done|d1 loaded~d1 t1 print 7~d1 t1 done 0~d1 load refused: loaded~d1 call refused: no function~t3 idle~d1 unloaded~tables~clock 0~d1 call refused: absent~end 2~
run s d|load d1 1~finish 1~load d1 1~call d1 2 nope~run 3 5|@|0|Done|d1 loaded~d1 t1 print 7~d1 t1 done 0~d1 load refused: loaded~d1 call refused: no function~t3 idle~end 2~
// a shared line, and a driver that is started anew once
run s d e|version 2~load d1 1 restarts 1~finish 1~load d2 2~finish 2~irq 5~finish 1~irq 5~show|void h(int l) { int z; z = 1 / z; return; }~int init(void) { int r; r = request_line(5, h); printd(r); return 0; }|0|DriverFailed|d1 loaded~d1 t1 print 0~d1 t1 done 0~d2 loaded~d2 t2 print 0~d2 t2 done 0~irq 5 d1~d1 t0 failed Div 1~d1 undo line 5~tables~line 5 d2 h~clock 0~irq 5 d2~d2 t0 print 5~d2 t0 done~d1 restarted~d1 t1 print 0~d1 t1 done 0~irq 5 d2~d2 t0 print 5~d2 t0 done~irq 5 d1~d1 t0 failed Div 1~d1 undo line 5~tables~line 5 d2 h~clock 0~tables~line 5 d2 h~clock 0~end 15~|void h(int l) { printd(l); return; }~int init(void) { int r; r = request_line(5, h); printd(r); return 0; }
// in version 1 a line is held by one
run s d e|load d1 1~finish 1~load d2 2~finish 2~irq 5|void h(int l) { int z; z = 1 / z; return; }~int init(void) { int r; r = request_line(5, h); printd(r); return 0; }|0|DriverFailed|d1 loaded~d1 t1 print 0~d1 t1 done 0~d2 loaded~d2 t2 print -16~d2 t2 done 0~irq 5 d1~d1 t0 failed Div 1~d1 undo line 5~tables~clock 0~end 7~|void h(int l) { printd(l); return; }~int init(void) { int r; r = request_line(5, h); printd(r); return 0; }
// a device that answers the least number there is
run s d|answer 5 -2147483648~load d1 1~finish 1|int a[4];~int init(void) { int i; int r; r = request_ports(5, 1); i = port_in(5); r = a[i]; return 0; }|0|DriverFailed|d1 loaded~d1 t1 failed Bound 2~d1 undo ports 5 1~d1 undo block 16~tables~clock 0~end 3~
// as many blocks as a driver may have
run s d|load d1 1~finish 1|int init(void) { char *p; int i; p = kalloc(char, 1); while (p) { i = i + 1; p = kalloc(char, 1); } printd(i); return 0; }|0|Done|d1 loaded~d1 t1 print 4096~d1 t1 done 0~end 12292~
// the second driver's text is refused
run s d e|load d1 1~|@|0|Refused|refused 2 1 item~|int x
";

/// A driver with a ring of bytes that a device fills past its end, a timer that sets itself, and a restart.
const RING: &str =
    "run s d|load d1 1~finish 1~answer 768 65 66 67 68 69~irq 4~irq 4~irq 4~irq 4~tick 10~irq 4~restart d1 1~finish 1~irq 4~show~|struct ring { unsigned len; unsigned char *count(len) buf; unsigned head; };~struct ring r;~void tick(int n) { int k; k = set_timer(1, 10, tick, n + 1); return; }~void irq(int line) {~  int c;~  c = port_in(768);~  r.buf[r.head] = c;~  r.head = r.head + 1;~  return;~}~int init(void) {~  unsigned char *p;~  int e;~  p = kalloc(unsigned char, 4);~  if (!p) { return -12; }~  r.len = 4;~  r.buf = p;~  e = request_ports(768, 8);~  if (e < 0) return e;~  e = request_line(4, irq);~  if (e < 0) return e;~  e = set_timer(1, 10, tick, 0);~  printd(e);~  return 0;~}|0|DriverFailed|d1 loaded~d1 t1 print 0~d1 t1 done 0~irq 4 d1~d1 t0 done~irq 4 d1~d1 t0 done~irq 4 d1~d1 t0 done~irq 4 d1~d1 t0 done~timer d1 1~d1 t0 done~irq 4 d1~d1 t0 failed Bound 7~d1 undo timer 1~d1 undo line 4~d1 undo ports 768 8~d1 undo block 32~d1 undo block 16~tables~clock 10~d1 restarted~d1 t1 print 0~d1 t1 done 0~irq 4 d1~d1 t0 done~tables~block d1 16 12 image~block d1 32 4 live~line 4 d1 irq~ports 768 8 d1~timer d1 1 20 tick 0~clock 10~end 46~";

/// A scenario by the name `s` and drivers by the names `d` and `e`.
fn three_texts(
    alloc: Global,
    scenario: &str,
    driver: &str,
    second: &str,
) -> Result<Vec<(String, Vec<u8>)>, AllocError>
    ensures differ { IfOk result (λ texts. IsTrue (names_differ (map text_of texts.items))) }
{
    let mut texts = Vec::new(alloc);
    let scenario = Vec::from_slice(alloc, scenario.as_bytes())?;
    texts.push((String::from_str(alloc, "s")?, scenario))?;
    let driver = Vec::from_slice(alloc, driver.as_bytes())?;
    texts.push((String::from_str(alloc, "d")?, driver))?;
    let second = Vec::from_slice(alloc, second.as_bytes())?;
    texts.push((String::from_str(alloc, "e")?, second))?;
    Ok(texts)
}

/// The words of a command; of an empty text none.
fn words_of(alloc: Global, text: &str) -> Result<Vec<String>, AllocError> {
    let mut words = Vec::new(alloc);
    if text.is_empty() {
        return Ok(words);
    }
    for word in text.split(' ') {
        words.push(String::from_str(alloc, word)?)?;
    }
    Ok(words)
}

/// Adds a text whose lines stand between `~`, and `DRIVER` in place of `@`. Where memory is wanting some is left out, and the row comes out
/// otherwise.
fn put_lines(out: &mut String, text: &str) {
    if text == "@" {
        let _ = out.push_str(DRIVER);
        return;
    }
    for letter in text.chars() {
        let _ = out.push(if letter == '~' { '\n' } else { letter });
    }
}

/// A field of a row.
fn field(row: &str, number: usize) -> &str {
    row.split('|').nth(number).unwrap_or("")
}

/// The same with its lines.
fn lines_of(alloc: Global, row: &str, number: usize) -> String {
    let mut out = String::new(alloc);
    put_lines(&mut out, field(row, number));
    out
}

/// Whether these words over these texts, with one read that fails, give this status and write this.
fn gives(
    alloc: Global,
    words: &[String],
    mut shelf: MemShelf,
    status: &str,
    output: &str,
) -> Result<bool, AllocError> {
    let mut sink = MemSink::new(alloc, 2_000, Vec::new(alloc), 2_000)?;
    let answer = serve(alloc, words, &mut shelf, &mut sink);
    Ok(answer.name() == status && sink.bytes() == output.as_bytes())
}

/// The texts of a row on a shelf that hands out so many bytes a call, of which the read with this number fails.
fn shelf_of(alloc: Global, row: &str, failing: u64, most: usize) -> Result<MemShelf, AllocError>
    requires { 1 ≤ most }
{
    let scenario = lines_of(alloc, row, 1);
    let driver = lines_of(alloc, row, 2);
    let second = lines_of(alloc, row, 6);
    let texts = three_texts(alloc, scenario.as_str(), driver.as_str(), second.as_str())?;
    let fail = Vec::from_slice(alloc, &[failing])?;
    Ok(MemShelf::new(texts, fail, most))
}

/// The number of the read that fails in a row.
fn failing_read(row: &str) -> u64 {
    field(row, 3).parse::<u64>().unwrap_or(0)
}

/// Whether a row comes out as it says.
fn comes_out(alloc: Global, row: &str) -> Result<bool, AllocError> {
    let shelf = shelf_of(alloc, row, failing_read(row), 4_096)?;
    let words = words_of(alloc, field(row, 0))?;
    let output = lines_of(alloc, row, 5);
    gives(
        alloc,
        words.as_slice(),
        shelf,
        field(row, 4),
        output.as_str(),
    )
}

/// The first row of a table that comes out otherwise; an empty text where each comes out as it says.
fn first_wrong<'t>(alloc: Global, table: &'t str) -> Result<&'t str, AllocError> {
    for row in table.lines() {
        if !row.starts_with("//") && !comes_out(alloc, row)? {
            return Ok(row);
        }
    }
    Ok("")
}

#[test]
fn calls_answer_and_write_as_they_should(rt: HostRuntime) -> Result<(), Fail> {
    assert_eq!(rt; first_wrong(rt.alloc(), CALLS)?, "");
    Ok(())
}

#[test]
fn failures_are_told(rt: HostRuntime) -> Result<(), Fail> {
    assert_eq!(rt; first_wrong(rt.alloc(), FAILURES)?, "");
    Ok(())
}

#[test]
fn refusals_are_told(rt: HostRuntime) -> Result<(), Fail> {
    assert_eq!(rt; first_wrong(rt.alloc(), REFUSALS)?, "");
    Ok(())
}

#[test]
fn runs_print_what_they_should(rt: HostRuntime) -> Result<(), Fail> {
    assert_eq!(rt; first_wrong(rt.alloc(), RUNS)?, "");
    assert_eq!(rt; first_wrong(rt.alloc(), RING)?, "");
    Ok(())
}

/// How a call with a fault comes out.
#[derive(Clone, Copy, PartialEq, Eq, Debug)]
enum Outcome {
    /// Its output is whole, and its status is that of the whole.
    Whole,
    /// Its status is that of the fault, and a front part of the output is there; none of it where a read fails.
    Front,
    Otherwise,
}

/// How a call came out whose output would be `whole`.
fn outcome_of(status: Status, written: &[u8], whole: &[u8]) -> Outcome {
    match status {
        Status::DriverFailed if written == whole => Outcome::Whole,
        Status::WriteFault if whole.starts_with(written) => Outcome::Front,
        Status::ReadFault if written.is_empty() => Outcome::Front,
        _ => Outcome::Otherwise,
    }
}

/// How the call of a row comes out, of which the read and the write with these numbers fail (none where a number is 0). A read hands out 50
/// bytes at most, a write takes 30.
fn with_faults(alloc: Global, row: &str, read: u64, write: u64) -> Result<Outcome, AllocError> {
    let mut shelf = shelf_of(alloc, row, read, 50)?;
    let words = words_of(alloc, field(row, 0))?;
    let whole = lines_of(alloc, row, 5);
    let fail = Vec::from_slice(alloc, &[write])?;
    let mut sink = MemSink::new(alloc, 2_000, fail, 30)?;
    let status = serve(alloc, words.as_slice(), &mut shelf, &mut sink);
    Ok(outcome_of(status, sink.bytes(), whole.as_bytes()))
}

/// The number of the first read that no longer fails, as the call makes fewer; 0 where a call before comes out otherwise than it should.
fn reads_in_turn(alloc: Global, row: &str) -> Result<u64, AllocError> {
    for call in 1..200u64 {
        match with_faults(alloc, row, call, 0)? {
            Outcome::Front => {}
            Outcome::Whole => return Ok(call),
            Outcome::Otherwise => return Ok(0),
        }
    }
    Ok(0)
}

/// The same of writes.
fn writes_in_turn(alloc: Global, row: &str) -> Result<u64, AllocError> {
    for call in 1..200u64 {
        match with_faults(alloc, row, 0, call)? {
            Outcome::Front => {}
            Outcome::Whole => return Ok(call),
            Outcome::Otherwise => return Ok(0),
        }
    }
    Ok(0)
}

#[test]
fn each_read_fails_in_turn(rt: HostRuntime) -> Result<(), Fail> {
    assert!(rt; reads_in_turn(rt.alloc(), RING)? > 10);
    Ok(())
}

#[test]
fn each_write_fails_in_turn(rt: HostRuntime) -> Result<(), Fail> {
    assert!(rt; writes_in_turn(rt.alloc(), RING)? > 10);
    Ok(())
}

/// A text in which a letter stands so many times.
fn repeated(
    alloc: Global,
    before: &str,
    letter: char,
    count: usize,
    after: &str,
) -> Result<String, AllocError> {
    let mut text = String::from_str(alloc, before)?;
    for _ in 0..count {
        text.push(letter)?;
    }
    text.push_str(after)?;
    Ok(text)
}

/// Whether a run of one driver gives this status and writes this.
fn run_gives(
    alloc: Global,
    scenario: &str,
    driver: &str,
    status: &str,
    output: &str,
) -> Result<bool, AllocError> {
    let texts = three_texts(alloc, scenario, driver, "")?;
    let shelf = MemShelf::new(texts, Vec::new(alloc), 4_096);
    let words = words_of(alloc, "run s d")?;
    gives(alloc, words.as_slice(), shelf, status, output)
}

/// Whether a run of so many empty statements writes this. The task is finished twice.
fn steps_give(alloc: Global, count: usize, output: &str) -> Result<bool, AllocError> {
    let driver = repeated(alloc, "int init(void) { ", ';', count, "}")?;
    let scenario = "load d1 1\nfinish 1\nfinish 1\n";
    run_gives(alloc, scenario, driver.as_str(), "Done", output)
}

#[test]
fn a_run_ends_at_the_most_steps(rt: HostRuntime) -> Result<(), Fail> {
    assert!(rt;
        steps_give(
            rt.alloc(),
            99_999,
            "d1 loaded\nd1 t1 done 0\nt1 idle\nend 100000\n"
        )?
    );
    Ok(())
}

#[test]
fn a_run_of_one_step_more_is_stopped(rt: HostRuntime) -> Result<(), Fail> {
    assert!(rt; steps_give(rt.alloc(), 100_000, "d1 loaded\nbound 100000\n")?);
    Ok(())
}

/// Whether a run under a scenario of so many lines without words gives this status and writes this.
fn lines_give(alloc: Global, count: usize, status: &str, output: &str) -> Result<bool, AllocError> {
    let scenario = repeated(alloc, "", '\n', count, "")?;
    run_gives(alloc, scenario.as_str(), DRIVER, status, output)
}

#[test]
fn a_scenario_has_65536_lines_at_most(rt: HostRuntime) -> Result<(), Fail> {
    assert!(rt; lines_give(rt.alloc(), 65_536, "Done", "end 0\n")?);
    assert!(rt; lines_give(rt.alloc(), 65_537, "BadScenario", "scenario 65537 limit\n")?);
    Ok(())
}

/// Whether a run over a sink that takes 5 bytes a call, and whose second call fails, says so and leaves the bytes of the first.
fn leaves_a_front_part(alloc: Global) -> Result<bool, AllocError> {
    let texts = three_texts(alloc, "load d1 1\nfinish 1\n", DRIVER, "")?;
    let mut shelf = MemShelf::new(texts, Vec::new(alloc), 4_096);
    let words = words_of(alloc, "run s d")?;
    let fail = Vec::from_slice(alloc, &[2])?;
    let mut sink = MemSink::new(alloc, 1_000, fail, 5)?;
    let answer = serve(alloc, words.as_slice(), &mut shelf, &mut sink);
    Ok(answer == Status::WriteFault && sink.bytes() == b"d1 lo".as_slice())
}

#[test]
fn a_write_that_fails_leaves_a_front_part(rt: HostRuntime) -> Result<(), Fail> {
    assert!(rt; leaves_a_front_part(rt.alloc())?);
    Ok(())
}
