//! The numbers of atoms: in the order of their first use, in the checks as they are written; equal expressions are one atom.
use super::tables::{Frame, wrong_rows};
use super::texts::View;
use std::test::Fail;

const ATOMS: Frame<'static> = Frame {
    before: "struct v { int t; union { int n when (t == 1); int *safe p when (t == 2); } u; }; struct b { int len; int *count(len) buf; int off; int *bound(buf, buf + off) cur; };
int f(int *count(n) p, int n, char *nullterm t, struct v *safe vp, struct b *safe bp, char ch) { int x; int *q; int *bound(y, z) r; int *y; int *z; int *count(2*n - x) l;
",
    after: "\n}",
    function: 0,
    view: View::Atoms,
    line: 3,
};

const NUMBERED: &str = "x = p[n];
  p
  n
  l
  i32:p[4*n]
  x
x = *p;
  p
  n
  l
  i32:*p
  x
x = q[x + 1];
  q
  q.low
  i32(x + 1)
  q.high
  l
  n
  i32:q[4*i32(x + 1)]
  x
r = q;
  q.low
  y
  q
  z
  q.high
y = q;
  y
  q
  r
  z
l = q;
  q.low
  q
  n
  x
  q.high
x = 5;
  l
  n
  x
*t = ch;
  t
  ch
vp->t = n;
  vp
  n
  i32:*vp.0
vp->u.n = 1;
  vp
  i32:*vp.0
bp->off = n;
  bp
  p0:*bp.4
  p0:*bp.12
  n
  i32:*bp.8
bp->cur = q;
  bp
  q.low
  p0:*bp.4
  q
  i32:*bp.8
  q.high
x = p[x] + p[x];
  p
  x
  n
  l
  i32(i32:p[4*x] + i32:p[4*x])
x = bp->len / (*bp).len;
  bp
  i32:*bp.0
  l
  n
  i32(i32:*bp.0 / i32:*bp.0)
  x
if (t[1] / *(t + 1)) ;
  t
  u8:*(t + 1*1)
if (1 / t[0] / *t) ;
  t
  u8:*t
if (1 / *p / p[0]) ;
  p
  n
  i32:*p
  i32:p[4*0]
if (1 / *(p + n) / *(n + p)) ;
  p
  n
  i32:*(p + 4*n)
  i32:*(4*n + p)
if (1 / (1 + (x)) / ((1) + x)) ;
  i32(1 + x)
if (1 / (x + 0x10) / (x + 16) / (x + 16u) / (x + '\\n') / (x + 10)) ;
  i32(x + 16)
  u32(x + 16u)
  i32(x + 10)
if (1 / (int)x / x) ;
  i32(x)
  x
";

#[test]
fn atoms_are_numbered_by_first_use(rt: HostRuntime) -> Result<(), Fail> {
    assert_eq!(rt; wrong_rows(rt.alloc(), &ATOMS, NUMBERED).as_str(), "");
    Ok(())
}
