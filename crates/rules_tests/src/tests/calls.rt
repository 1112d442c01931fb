//! Calls: of functions, of the kernel, and with handlers. Each row is one statement.
use super::tables::{Frame, wrong_rows};
use super::texts::View;
use std::test::Fail;

/// The functions with bodies are `give` 0, `take` 1, `pair` 2, `name` 3, `two` 4, `on` 5, `off` 6, `on_two` 7, `on_unsigned` 8, `on_long` 9, `half` 10, `ends` 11, `f` 12.
const BEFORE: &str = "int gi; char text[4]; char *nullterm gt; int g; \
int give(int *count(n) p, int n) { return 1; } void take(char *nullterm t, unsigned char c) { return; } int *count(2) pair(int a) { return 0; } \
char *nullterm name(void) { return 0; } void two(int *bound(lo, hi) b, int *count(k) lo, int *safe hi, char k) { return; } void on(int l) { return; } \
int off(int l) { return 0; } void on_two(int a, int b) { return; } void on_unsigned(unsigned l) { return; } void on_long(long l) { return; } \
short half(void) { return 0; } int *sentinel ends(char *count(2*n - 1) s, char n) { return 0; } int proto(int x); void handler(int x);
int f(int *count(n) p, int n, int *bound(lo, hi + n) b, int *safe lo, int *count(2) hi, char *nullterm t, int k) { int x; int *q; char *cq; char *nullterm tt; char ch; \
int *count(j) l; int j; int *bound(y, z) r; int *y; int *z; int *safe sl; unsigned w; int give;
";

const CHECKS: Frame<'static> = Frame {
    before: BEFORE,
    after: "\n}",
    function: 12,
    view: View::Checks,
    line: 3,
};

const FORMS: Frame<'static> = Frame {
    before: BEFORE,
    after: "\n}",
    function: 12,
    view: View::Body,
    line: 3,
};

const CALLS: &str = "// arguments
x = give(p, n);
  Bound 0 | p
  Bound 0 | p
  Bound -4*n | p
  Bound 0 | p
  Align 0 by 4 | p
x = give(q, 4);
  Bound q.low-q | q
  Bound 0 | q
  Bound -16 | q
  Bound q-q.high+16 | q
  Align 0 by 4 | q
give(q, -1);
  Bound q.low-q | q
  Bound 0 | q
  Bound 4 | q
  Bound q-q.high-4 | q
  Align 0 by 4 | q
x = give(q, w);
  Bound q.low-q | q
  Bound 0 | q
  Bound -4*i32(w) | q
  Bound q+4*i32(w)-q.high | q
  Align 0 by 4 | q
x = give(q, ch);
  Bound q.low-q | q
  Bound 0 | q
  Bound -4*ch | q
  Bound q+4*ch-q.high | q
  Align 0 by 4 | q
x = give(q + 1, p[0]);
  Null -q+1
  Bound -q+q.low-4
  Bound q-q.high+4
  Null -p+1
  Bound 0
  Bound -4*n+4
  Bound -q+q.low-4 | q+4
  Bound 0 | q+4
  Bound -4*i32:p[4*0] | q+4
  Bound q-q.high+4*i32:p[4*0]+4 | q+4
  Align 0 by 4 | q+4
x = give(0, 5);
x = give((void *)0, 5);
x = give((0), p[0]);
  Null -p+1
  Bound 0
  Bound -4*n+4
x = give(q);
  no rule
x = give(q, 1, 2);
  no rule
x = give();
  no rule
x = give(cq, 1);
  no rule
x = give(t, 1);
  no rule
x = give(x, 1);
  no rule
x = give(0u, 1);
  no rule
x = give(q, q);
  no rule
x = give(q, (void *)0);
  no rule
x = give(q, nowhere);
  no rule
take(t, 1);
take(\"ab\", x);
take(0, 1);
take(gt, 'a');
take(t + 1, *t);
  Null -t+1
  Term at t
  Null -t+1
take(cq, 1);
  no rule
take(text, 1);
  no rule
two(b, lo, hi, 3);
  Bound 0 | b
  Bound lo-b | b
  Bound b-hi | b
  Bound -4*n | b
  Align -lo+b by 4 | b
  Bound 0 | lo
  Bound 0 | lo
  Bound -12 | lo
  Bound 8 | lo
  Align 0 by 4 | lo
  Bound 0 | hi
  Bound 0 | hi
  Bound -4 | hi
  Bound -4 | hi
  Align 0 by 4 | hi
two(0, lo, 0, 259);
  Bound 0 | lo
  Bound 0 | lo
  Bound -12 | lo
  Bound 8 | lo
  Align 0 by 4 | lo
two(0, lo, 0, x);
  Bound 0 | lo
  Bound 0 | lo
  Bound -4*u8(x) | lo
  Bound 4*u8(x)-4 | lo
  Align 0 by 4 | lo
two(b, 0, (void *)0, 3);
  Bound lo | b
  Bound -b | b
  Bound b | b
  Bound -hi-4*n | b
  Align b by 4 | b
ends(cq, ch);
  Bound cq.low-cq | cq
  Bound 0 | cq
  Bound -2*ch+1 | cq
  Bound cq+2*ch-cq.high-1 | cq
ends(cq, 257);
  Bound cq.low-cq | cq
  Bound 0 | cq
  Bound -1 | cq
  Bound cq-cq.high+1 | cq
on(x);
on(p[1]);
  Null -p+1
  Bound -4
  Bound -4*n+8
proto(1);
  no rule
x = proto(1);
  no rule
nowhere(1);
  no rule
x(1);
  no rule
gi(1);
  no rule
f(p, n, b, lo, hi, t);
  no rule
// results
x = off(1);
ch = off(1);
w = off(1);
k = off(1);
x = half();
q = pair(1);
pair(1);
q = ends(0, 1);
tt = name();
t = name();
name();
give = give(0, 1);
n = off(1);
  no rule
j = off(1);
  no rule
x = on(1);
  no rule
tt = take(t, 1);
  no rule
q = off(1);
  no rule
x = pair(1);
  no rule
cq = pair(1);
  no rule
tt = pair(1);
  no rule
sl = pair(1);
  no rule
l = pair(1);
  no rule
p = pair(1);
  no rule
y = pair(1);
  no rule
cq = name();
  no rule
q = name();
  no rule
gt = name();
  no rule
gi = off(1);
  no rule
g = half();
  no rule
nowhere = off(1);
  no rule
off = off(1);
  no rule
// kernel
printd(x);
printd(w);
printd(p[0]);
  Null -p+1
  Bound 0
  Bound -4*n+4
prints(t);
prints(\"ab\");
prints(0);
prints((void *)0);
prints(t + 1);
  Null -t+1
  Term at t
x = request_line(5, on);
x = request_line(5, (on));
x = request_line(5, on_long);
x = free_line(5);
x = request_ports(1, 2);
x = release_ports(1, 2);
x = port_in(1);
port_out(1, 2);
port_out(p[0], *q);
  Null -p+1
  Bound 0
  Bound -4*n+4
  Null -q+1
  Bound q-q.high+4
x = add_device(1);
x = del_device(1);
x = set_param(1, 2);
x = clear_param(1);
x = get_param(1);
x = set_timer(1, 2, on, 3);
x = del_timer(1);
x = now();
lock(1);
unlock(1);
mask();
unmask();
x = hold(1);
x = drop_hold(1);
x = queue_work(on, 8);
ch = port_in(1);
now();
request_line(5, on);
printd();
  no rule
printd(1, 2);
  no rule
printd(p);
  no rule
printd((void *)0);
  no rule
printd(g, nowhere);
  no rule
prints(cq);
  no rule
prints(text);
  no rule
prints(1);
  no rule
x = printd(1);
  no rule
x = lock(1);
  no rule
x = mask();
  no rule
mask(1);
  no rule
x = now(1);
  no rule
q = now();
  no rule
tt = now();
  no rule
j = now();
  no rule
gi = now();
  no rule
x = request_line(5, off);
  no rule
x = request_line(5, on_two);
  no rule
x = request_line(5, on_unsigned);
  no rule
x = request_line(5, half);
  no rule
x = request_line(5, handler);
  no rule
x = request_line(5, printd);
  no rule
x = request_line(5, mask);
  no rule
x = request_line(5, nowhere);
  no rule
x = request_line(5, x);
  no rule
x = request_line(5, 5);
  no rule
x = request_line(5, +on);
  no rule
x = request_line(on, 5);
  no rule
x = request_line(5);
  no rule
x = set_timer(1, 2, 3, on);
  no rule
x = set_timer(1, 2, on);
  no rule
x = queue_work(8, on);
  no rule
";

const CALL_FORMS: &str = "x = give(p, ch);
  3 x = i32 call 0(p0 p, i32 ch)#1#2#3#4#5;
give(0, 1);
  3 call 0(p0 null, i32 1);
take(t, x);
  3 call 1(p0 t, u8 x);
q = pair(w);
  3 q with q.low = call 2(i32 w);
tt = name();
  3 tt = text call 3();
ch = half();
  3 ch = u8 call 10();
on(*p);
  3 call 5(i32 i32:*p#1#2);
printd(w);
  3 kernel Printd(i32 w) handler 0 element 0 of 0;
prints(t + 1);
  3 kernel Prints((t + 1*1)#1#2 in [t + 1, t + 1)) handler 0 element 0 of 0;
prints(0);
  3 kernel Prints(null in [0, 0)) handler 0 element 0 of 0;
x = request_line(5, on);
  3 x = i32 kernel RequestLine(i32 5) handler 5 element 0 of 0;
x = set_timer(1, ch, on_long, 3);
  3 x = i32 kernel SetTimer(i32 1, i32 ch, i32 3) handler 9 element 0 of 0;
queue_work(on, 8);
  3 kernel QueueWork(i32 8) handler 5 element 0 of 0;
w = now();
  3 w = u32 kernel Now() handler 0 element 0 of 0;
lock(3);
  3 kernel Lock(i32 3) handler 0 element 0 of 0;
";

#[test]
fn calls_have_the_checks_of_their_arguments(rt: HostRuntime) -> Result<(), Fail> {
    assert_eq!(rt; wrong_rows(rt.alloc(), &CHECKS, CALLS).as_str(), "");
    Ok(())
}

#[test]
fn calls_have_their_forms(rt: HostRuntime) -> Result<(), Fail> {
    assert_eq!(rt; wrong_rows(rt.alloc(), &FORMS, CALL_FORMS).as_str(), "");
    Ok(())
}
