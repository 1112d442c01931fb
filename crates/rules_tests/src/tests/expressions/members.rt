//! Fields and arms of structs.
use super::CHECKS;
use crate::tests::tables::wrong_rows;
use std::test::Fail;

const MEMBERS: &str = "// members
x = g.a;
x = g.w.x;
x = (g).w.y;
x = sp->a;
  Null -sp+1
  Bound 0
x = (*sp).a;
  Null -sp+1
  Bound 0
x = sp->w.x;
  Null -sp+1
  Bound 0
x = sq->a;
  Null -sq+1
  Bound sq-sq.high+40
x = sq[1].a;
  Null -sq+1
  Bound -sq+sq.low-40
  Bound sq-sq.high+80
x = h[i].a;
  Bound -40*i
  Bound 40*i-80
x = h->a;
  Bound -80
x = (h + 1)->a;
  Bound -40
  Bound -80
  Bound -40
x = (&g)->a;
  Bound 0
x = g.p[i];
  Null -p0:b16.4+1
  Bound -4*i
  Bound 4*i-4*i32:b16.8+4
x = sp->p[i];
  Null -sp+1
  Bound 0
  Null -p0:*sp.4+1
  Bound -4*i
  Bound 4*i-4*i32:*sp.8+4
x = *h[i].p;
  Bound -40*i
  Bound 40*i-80
  Null -p0:&b160[40*i].4+1
  Bound -4*i32:&b160[40*i].8+4
x = g.c[i];
  Bound -i
  Bound i-3
x = *g.c;
  Bound -3
x = g.t->x;
  Null -p0:b16.16+1
  Bound 0
x = sp->t->y;
  Null -sp+1
  Bound 0
  Null -p0:*sp.16+1
  Bound 0
x = *g.e;
  Null -p0:b16.36+1
  Bound 0
x = *g.z;
  Null -p0:b16.32+1
x = g.nothing;
  no rule
x = g.u;
  no rule
x = g.w;
  no rule
x = i.a;
  no rule
x = q->a;
  no rule
x = a.a;
  no rule
x = h.a;
  no rule
x = sp.a;
  no rule
x = g->a;
  no rule
x = t->a;
  no rule
x = (g.a).a;
  no rule
x = ((void *)0)->a;
  no rule
// arms
x = g.u.i;
  Tag u8:b16.24 is 1
x = *g.u.q;
  Tag u8:b16.24 is 2
  Null -p0:b16.28+1
  Bound 0
x = sp->u.i;
  Null -sp+1
  Bound 0
  Tag u8:*sp.24 is 1
x = h[2].u.i;
  Bound -80
  Bound 0
  Tag u8:&b160[40*2].24 is 1
x = (g.u).i;
  Tag u8:b16.24 is 1
x = g.u.none;
  no rule
x = g.i;
  no rule
x = g.u.k;
  no rule
x = g.u.i.a;
  no rule
x = g.u->i;
  no rule
x = *g.u;
  no rule
x = g.u + 1;
  no rule
";

#[test]
fn members_lie_in_their_structs(rt: HostRuntime) -> Result<(), Fail> {
    assert_eq!(rt; wrong_rows(rt.alloc(), &CHECKS, MEMBERS).as_str(), "");
    Ok(())
}
