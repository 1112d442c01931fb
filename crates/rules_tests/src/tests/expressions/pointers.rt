//! Pointers moved.
use super::CHECKS;
use crate::tests::tables::wrong_rows;
use std::test::Fail;

const POINTER_SUMS: &str = "// pointer sums
q = p + i;
  Null -p+1
  Bound -4*i
  Bound 4*i-4*n
q = i + p;
  Null -p+1
  Bound -4*i
  Bound 4*i-4*n
q = p + u;
  Null -p+1
  Bound 4*u-4*n
q = u + p;
  Null -p+1
  Bound 4*u-4*n
q = p - i;
  Null -p+1
  Bound 4*i
  Bound -4*i-4*n
q = p - u;
  Null -p+1
  Bound 4*u
q = p + ch;
  Null -p+1
  Bound -4*ch
  Bound 4*ch-4*n
q = p + -2;
  Null -p+1
  Bound 8
  Bound -4*n-8
q = p - 2u;
  Null -p+1
  Bound 8
q = i - p;
  no rule
q = p + q;
  no rule
x = p - q;
  no rule
q = p * 2;
  no rule
q = +p;
  no rule
q = -p;
  no rule
q = ~p;
  no rule
q = p & 1;
  no rule
q = p << 1;
  no rule
q = p / 1;
  no rule
q = g + 1;
  no rule
q = (void *)0 + 1;
  no rule
q = 1 + (void *)0;
  no rule
q = a + 2;
  Bound -8
  Bound -8
q = a - 2;
  Bound 8
  Bound -24
q = a + i + 1;
  Bound -4*i
  Bound 4*i-16
  Bound -4*i-4
  Bound 4*i-12
q = 1 + (a + i);
  Bound -4*i
  Bound 4*i-16
  Bound -4*i-4
  Bound 4*i-12
q = p + 1 - 1;
  Null -p+1
  Bound -4
  Bound -4*n+4
  Bound 0
  Bound -4*n
q = &gi + 1;
  Bound -4
  Bound 0
q = q + i;
  Null -q+1
  Bound -q+q.low-4*i
  Bound q+4*i-q.high
q = b + i;
  Null -b+1
  Bound -b+lo-4*i
  Bound b+4*i-hi
q = p + p[0];
  Null -p+1
  Bound 0
  Bound -4*n+4
  Null -p+1
  Bound -4*i32:p[4*0]
  Bound -4*n+4*i32:p[4*0]
q = p[0] + p;
  Null -p+1
  Bound 0
  Bound -4*n+4
  Null -p+1
  Bound -4*i32:p[4*0]
  Bound -4*n+4*i32:p[4*0]
sq = sq + i;
  Null -sq+1
  Bound -sq+sq.low-40*i
  Bound sq+40*i-sq.high
cq = cq + 1;
  Null -cq+1
  Bound -cq+cq.low-1
  Bound cq-cq.high+1
// text sums
tt = t + 0;
  Null -t+1
tt = t + 1;
  Null -t+1
  Term at t
tt = t + 1 + 1;
  Null -t+1
  Term at t
  Term at t+1
tt = t + 0 + 1;
  Null -t+1
  Term at t
tt = \"ab\" + 0;
tt = \"ab\" + 1;
  Term at 288
tt = (t) + (1);
  Null -t+1
  Term at t
tt = t + 2;
  no rule
tt = t + 1u;
  no rule
tt = t + i;
  no rule
tt = 1 + t;
  no rule
tt = 0 + t;
  no rule
tt = t - 0;
  no rule
tt = t - 1;
  no rule
tt = t + -0;
  no rule
";

#[test]
fn pointers_move_within_their_bounds(rt: HostRuntime) -> Result<(), Fail> {
    assert_eq!(rt; wrong_rows(rt.alloc(), &CHECKS, POINTER_SUMS).as_str(), "");
    Ok(())
}
