//! Whole functions with all their checks, each behind the line of its statement.
use super::tables::{Show, wrong_texts};
use std::test::Fail;

const FUNCTIONS: &str = "// a call, for its own arguments
int init(void) { int *q; int r; q = kalloc(int, 4);~r = f(q, 4); printd(r);~r = f(q, 0); printd(r);~r = f(q, -1); return 0; }~int f(int \
*count(n) p, int n) { return 1; }
  2 Bound q.low-q | q
  2 Bound 0 | q
  2 Bound -16 | q
  2 Bound q-q.high+16 | q
  2 Align 0 by 4 | q
  3 Bound q.low-q | q
  3 Bound 0 | q
  3 Bound 0 | q
  3 Bound q-q.high | q
  3 Align 0 by 4 | q
  4 Bound q.low-q | q
  4 Bound 0 | q
  4 Bound 4 | q
  4 Bound q-q.high-4 | q
  4 Align 0 by 4 | q
// lowering a length passes, raising it under a live buffer fails
struct s { int len; int *count(len) buf; };~struct s g;~int init(void) {~  int *q;~  q = kalloc(int, 8);~  g.len = 8;~  g.buf = q;~  \
g.len = 4;~  printd(g.len);~  g.buf = 0;~  g.len = 8;~  g.buf = q;~  g.len = 9;~  return 0;~}
  6 Change 0 | p0:b16.4
  6 Change 0 | p0:b16.4
  6 Change -32 | p0:b16.4
  6 Change -4*i32:b16.0+32 | p0:b16.4
  6 Change 0 by 4 | p0:b16.4
  7 Bound q.low-q | q
  7 Bound 0 | q
  7 Bound -4*i32:b16.0 | q
  7 Bound 4*i32:b16.0+q-q.high | q
  7 Align 0 by 4 | q
  8 Change 0 | p0:b16.4
  8 Change 0 | p0:b16.4
  8 Change -16 | p0:b16.4
  8 Change -4*i32:b16.0+16 | p0:b16.4
  8 Change 0 by 4 | p0:b16.4
  11 Change 0 | p0:b16.4
  11 Change 0 | p0:b16.4
  11 Change -32 | p0:b16.4
  11 Change -4*i32:b16.0+32 | p0:b16.4
  11 Change 0 by 4 | p0:b16.4
  12 Bound q.low-q | q
  12 Bound 0 | q
  12 Bound -4*i32:b16.0 | q
  12 Bound 4*i32:b16.0+q-q.high | q
  12 Align 0 by 4 | q
  13 Change 0 | p0:b16.4
  13 Change 0 | p0:b16.4
  13 Change -36 | p0:b16.4
  13 Change -4*i32:b16.0+36 | p0:b16.4
  13 Change 0 by 4 | p0:b16.4
// two automatic pointers that bound a third one
int a[4];~int init(void) {~  int *lo;~  int *hi;~  int *bound(lo, hi) p;~  lo = a;~  hi = a + 4;~  p = hi;~  printd(1);~  printd(*p);~  \
return 0;~}
  6 Change lo-16 | p
  6 Change -p+16 | p
  6 Change p-hi | p
  6 Change 0 | p
  6 Change p-16 by 4 | p
  7 Bound -16
  7 Bound 0
  7 Change 0 | p
  7 Change lo-p | p
  7 Change p-32 | p
  7 Change -hi+32 | p
  7 Change -lo+p by 4 | p
  8 Bound -lo+hi.low | hi
  8 Bound lo-hi | hi
  8 Bound 0 | hi
  8 Bound hi-hi.high | hi
  8 Align -lo+hi by 4 | hi
  10 Null -p+1
  10 Bound p-hi+4
// a tag
struct v { int t; union { int n when(t == 1); int *safe p when(t == 2); } u; };~struct v g;~int init(void) {~  g.t = 1;~  g.u.n = 5;~  \
zero(g.u);~  g.t = 2;~  g.t = 1;~  g.u.n = 6;~  g.t = 2;~  return 0;~}
  4 Change old i32:b16.0 new 1 at 20 bytes 4
  5 Tag i32:b16.0 is 1
  7 Change old i32:b16.0 new 2 at 20 bytes 4
  8 Change old i32:b16.0 new 1 at 20 bytes 4
  9 Tag i32:b16.0 is 1
  10 Change old i32:b16.0 new 2 at 20 bytes 4
// a loop
int sum(int *count(n) p, unsigned n) {~  unsigned i;~  int s;~  while (i < n) {~    s = s + p[i];~    i = i + 1;~  }~  return s;~}
  5 Null -p+1
  5 Bound 4*i-4*n+4
";

#[test]
fn functions_are_checked_line_by_line(rt: HostRuntime) -> Result<(), Fail> {
    assert_eq!(rt;
        wrong_texts(rt.alloc(), Show::Checks, FUNCTIONS).as_str(),
        ""
    );
    Ok(())
}
