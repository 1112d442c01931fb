//! Addresses of places, and strings.
use super::CHECKS;
use crate::tests::tables::wrong_rows;
use std::test::Fail;

const ADDRESSES: &str = "// addresses
q = a;
q = &gi;
q = &(gi);
q = &g.a;
q = &(g.a);
sq = &g;
tq = &g.w;
qq = &gp;
qq = &g.e;
cq = &g.c[1];
  Bound -1
  Bound -2
q = &p[i];
  Null -p+1
  Bound -4*i
  Bound 4*i-4*n+4
sq = &h[i];
  Bound -40*i
  Bound 40*i-80
sq = &*sp;
  Null -sp+1
  Bound 0
q = &sp->a;
  Null -sp+1
  Bound 0
q = &*q;
  Null -q+1
  Bound q-q.high+4
x = *&g.a;
  Bound 0
q = &x;
  no rule
q = &n;
  no rule
qq = &p;
  no rule
q = &g.n;
  no rule
qq = &g.p;
  no rule
cq = &g.k;
  no rule
q = &g.u.i;
  no rule
q = &g.u;
  no rule
q = &a;
  no rule
cq = &g.c;
  no rule
sq = &h;
  no rule
cq = &*t;
  no rule
cq = &t[0];
  no rule
cq = &*\"ab\";
  no rule
q = &5;
  no rule
q = &f;
  no rule
q = &(i + 1);
  no rule
q = & &gi;
  no rule
q = &(p + 1);
  no rule
q = &(void *)0;
  no rule
x = &gi;
  no rule
// strings
tt = \"ab\";
tt = \"\";
tt = t;
tt = gt;
tt = g.z;
tt = 0;
tt = (void *)0;
cq = \"ab\";
  no rule
q = \"ab\";
  no rule
x = \"ab\";
  no rule
tt = cq;
  no rule
cq = t;
  no rule
tt = 'a';
  no rule
";

#[test]
fn some_places_have_an_address(rt: HostRuntime) -> Result<(), Fail> {
    assert_eq!(rt; wrong_rows(rt.alloc(), &CHECKS, ADDRESSES).as_str(), "");
    Ok(())
}
