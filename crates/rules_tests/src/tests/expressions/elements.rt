//! Elements of arrays and blocks, and of texts up to their end.
use super::CHECKS;
use crate::tests::tables::wrong_rows;
use std::test::Fail;

const ELEMENTS: &str = "// elements
x = p[i];
  Null -p+1
  Bound -4*i
  Bound 4*i-4*n+4
x = p[u];
  Null -p+1
  Bound 4*u-4*n+4
x = p[3];
  Null -p+1
  Bound -12
  Bound -4*n+16
x = p[3u];
  Null -p+1
  Bound -4*n+16
x = p[-1];
  Null -p+1
  Bound 4
  Bound -4*n
x = p[i + 1];
  Null -p+1
  Bound -4*i32(i + 1)
  Bound 4*i32(i + 1)-4*n+4
x = p[i + u];
  Null -p+1
  Bound 4*u32(i + u)-4*n+4
x = p[ch];
  Null -p+1
  Bound -4*ch
  Bound 4*ch-4*n+4
x = p[(char)i];
  Null -p+1
  Bound -4*u8(i)
  Bound 4*u8(i)-4*n+4
x = p[(unsigned)i];
  Null -p+1
  Bound 4*u32(i)-4*n+4
x = p['a'];
  Null -p+1
  Bound -388
  Bound -4*n+392
x = p[sizeof(int)];
  Null -p+1
  Bound -4*n+20
x = a[i];
  Bound -4*i
  Bound 4*i-12
x = a[u];
  Bound 4*u-12
x = a[3];
  Bound -12
  Bound 0
x = q[i];
  Null -q+1
  Bound -q+q.low-4*i
  Bound q+4*i-q.high+4
x = b[i];
  Null -b+1
  Bound -b+lo-4*i
  Bound b+4*i-hi+4
x = p[p[0]];
  Null -p+1
  Bound 0
  Bound -4*n+4
  Null -p+1
  Bound -4*i32:p[4*0]
  Bound -4*n+4*i32:p[4*0]+4
x = p[*lo];
  Null -lo+1
  Bound 0
  Null -p+1
  Bound -4*i32:*lo
  Bound 4*i32:*lo-4*n+4
x = (p + 1)[i];
  Null -p+1
  Bound -4
  Bound -4*n+4
  Bound -4*i-4
  Bound -4*n+4*i+8
x = i[p];
  no rule
x = p[q];
  no rule
x = p[0][0];
  no rule
x = i[0];
  no rule
x = g[0];
  no rule
x = p[g];
  no rule
x = ((void *)0)[0];
  no rule
// text elements
x = t[0];
  Null -t+1
x = t[1];
  Null -t+1
  Term at t
x = t[2];
  no rule
x = t[i];
  no rule
x = t[0u];
  no rule
x = t[1L];
  no rule
x = t[-0];
  no rule
x = t['\\0'];
  no rule
x = t[0x0];
  Null -t+1
x = t[01];
  Null -t+1
  Term at t
x = t[(0)];
  Null -t+1
x = (t)[(1)];
  Null -t+1
  Term at t
x = \"ab\"[0];
x = \"ab\"[1];
  Term at 288
x = gt[1];
  Null -p0:b112+1
  Term at p0:b112
x = g.z[1];
  Null -p0:b16.32+1
  Term at p0:b16.32
x = (t + 1)[1];
  Null -t+1
  Term at t
  Term at t+1
";

#[test]
fn elements_lie_within_their_bounds(rt: HostRuntime) -> Result<(), Fail> {
    assert_eq!(rt; wrong_rows(rt.alloc(), &CHECKS, ELEMENTS).as_str(), "");
    Ok(())
}
