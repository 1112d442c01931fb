//! Places assigned, and the fields and tags that name them.
use super::CHECKS;
use crate::tests::tables::wrong_rows;
use std::test::Fail;

const ASSIGNED: &str = "// places
gi = x;
gs = w;
a[x] = 1;
  Bound -4*x
  Bound 4*x-12
*p = x;
  Null -p+1
  Bound -4*n+4
p[x] = q[0];
  Null -q+1
  Bound -q+q.low
  Bound q-q.high+4
  Null -p+1
  Bound -4*x
  Bound 4*x-4*n+4
text[x] = 'a';
  Bound -x
  Bound x-7
gp = q;
  Bound q.low-q | q
  Bound 0 | q
  Bound -4 | q
  Bound q-q.high+4 | q
  Align 0 by 4 | q
gp = &gi;
  Bound 0 | 96
  Bound 0 | 96
  Bound -4 | 96
  Bound 0 | 96
  Align 0 by 4 | 96
gc = a;
  Bound 0 | 64
  Bound 0 | 64
  Bound -12 | 64
  Bound -4 | 64
  Align 0 by 4 | 64
gp = gc;
  Bound 0 | p0:b160
  Bound 0 | p0:b160
  Bound -4 | p0:b160
  Bound -8 | p0:b160
  Align 0 by 4 | p0:b160
gp = 0;
gt = t;
gt = \"ab\";
gt = 0;
gt = cq;
  no rule
gp = x;
  no rule
gp = cq;
  no rule
gi = q;
  no rule
*t = 5;
  Null -t+1
  Term at t new 5
*t = 0;
  Null -t+1
  Term at t new 0
*t = x;
  Null -t+1
  Term at t new u8(x)
*t = ch;
  Null -t+1
  Term at t new ch
*t = 256;
  Null -t+1
  Term at t new 0
*t = -1;
  Null -t+1
  Term at t new 255
*t = *t;
  Null -t+1
  Null -t+1
  Term at t new u8:*t
*t = w;
  Null -t+1
  Term at t new u8(w)
t[0] = 'a';
  Null -t+1
  Term at t new 97
t[1] = 'a';
  Null -t+1
  Term at t
  Term at t+1 new 97
*gt = 1;
  Null -p0:b128+1
  Term at p0:b128 new 1
*\"ab\" = 'x';
  Term at 224 new 120
t[2] = 1;
  no rule
*t = t;
  no rule
a = p;
  no rule
g = g;
  no rule
*sp = s;
  no rule
g.u = 0;
  no rule
5 = x;
  no rule
&gi = p;
  no rule
\"ab\" = t;
  no rule
-x = 1;
  no rule
f = 1;
  no rule
printd = 1;
  no rule
nowhere = 1;
  no rule
s.nothing = 1;
  no rule
*x = 1;
  no rule
(void *)0 = 0;
  no rule
nowhere = nowhere;
  no rule
// fields that siblings name, and arms and tags of unions
s.len = 5;
  Change 0 | p0:b32.4
  Change 0 | p0:b32.4
  Change -20 | p0:b32.4
  Change -4*i32:b32.0+20 | p0:b32.4
  Change 0 by 4 | p0:b32.4
  Change 0 | p0:b32.8
  Change p0:b32.4-p0:b32.8 | p0:b32.8
  Change -p0:b32.4+p0:b32.8-20 | p0:b32.8
  Change -4*i32:b32.0+20 | p0:b32.8
  Change -p0:b32.4+p0:b32.8 by 4 | p0:b32.8
  Change 0 | p0:b32.16
  Change 0 | p0:b32.16
  Change 4*i32:b32.12-40 | p0:b32.16
  Change -8*i32:b32.0+40 | p0:b32.16
  Change 0 by 4 | p0:b32.16
s.buf = q;
  Bound q.low-q | q
  Bound 0 | q
  Bound -4*i32:b32.0 | q
  Bound q+4*i32:b32.0-q.high | q
  Align 0 by 4 | q
  Change -q+p0:b32.4 | p0:b32.8
  Change q-p0:b32.8 | p0:b32.8
  Change -q-4*i32:b32.0+p0:b32.8 | p0:b32.8
  Change q-p0:b32.4 | p0:b32.8
  Change -q+p0:b32.8 by 4 | p0:b32.8
s.buf = 0;
  Change p0:b32.4 | p0:b32.8
  Change -p0:b32.8 | p0:b32.8
  Change p0:b32.8-4*i32:b32.0 | p0:b32.8
  Change -p0:b32.4 | p0:b32.8
  Change p0:b32.8 by 4 | p0:b32.8
s.off = 0;
  Change 0 | p0:b32.16
  Change 0 | p0:b32.16
  Change -8*i32:b32.0 | p0:b32.16
  Change 4*i32:b32.12 | p0:b32.16
  Change 0 by 4 | p0:b32.16
s.cur = q;
  Bound q.low-p0:b32.4 | q
  Bound p0:b32.4-q | q
  Bound -p0:b32.4+q-4*i32:b32.0 | q
  Bound p0:b32.4+4*i32:b32.0-q.high | q
  Align -p0:b32.4+q by 4 | q
s.far = 0;
sp->len = x;
  Null -sp+1
  Bound 0
  Change 0 | p0:*sp.4
  Change 0 | p0:*sp.4
  Change -4*x | p0:*sp.4
  Change 4*x-4*i32:*sp.0 | p0:*sp.4
  Change 0 by 4 | p0:*sp.4
  Change 0 | p0:*sp.8
  Change p0:*sp.4-p0:*sp.8 | p0:*sp.8
  Change -p0:*sp.4-4*x+p0:*sp.8 | p0:*sp.8
  Change 4*x-4*i32:*sp.0 | p0:*sp.8
  Change -p0:*sp.4+p0:*sp.8 by 4 | p0:*sp.8
  Change 0 | p0:*sp.16
  Change 0 | p0:*sp.16
  Change -8*x+4*i32:*sp.12 | p0:*sp.16
  Change 8*x-8*i32:*sp.0 | p0:*sp.16
  Change 0 by 4 | p0:*sp.16
sb[1].off = x;
  Bound -20
  Bound 0
  Change 0 | p0:&b176[20*1].16
  Change 0 | p0:&b176[20*1].16
  Change -8*i32:&b176[20*1].0+4*x | p0:&b176[20*1].16
  Change -4*x+4*i32:&b176[20*1].12 | p0:&b176[20*1].16
  Change 0 by 4 | p0:&b176[20*1].16
g.t = 2;
  Change old i32:b16.0 new 2 at 20 bytes 4
g.t = g.t;
  Change old i32:b16.0 new i32:b16.0 at 20 bytes 4
g.t = w;
  Change old i32:b16.0 new i32(w) at 20 bytes 4
g.k = x;
  Change old u8:b16.8 new u8(x) at 28 bytes 4
g.k = 300;
  Change old u8:b16.8 new 44 at 28 bytes 4
g.k = ch;
  Change old u8:b16.8 new ch at 28 bytes 4
vp->t = x;
  Null -vp+1
  Bound 0
  Change old i32:*vp.0 new x at vp+4 bytes 4
vp->k = 0;
  Null -vp+1
  Bound 0
  Change old u8:*vp.8 new 0 at vp+12 bytes 4
g.t = p;
  no rule
g.u.n = 5;
  Tag i32:b16.0 is 1
g.u.p = q;
  Tag i32:b16.0 is 2
  Bound q.low-q | q
  Bound 0 | q
  Bound -4 | q
  Bound q-q.high+4 | q
  Align 0 by 4 | q
g.u.p = 0;
  Tag i32:b16.0 is 2
g.u.c = x;
  Tag i32:b16.0 is -3
g.w.r = q;
  Tag u8:b16.8 is 255
  Bound q.low-q | q
  Bound 0 | q
  Bound -8 | q
  Bound q-q.high+8 | q
  Align 0 by 4 | q
g.w.m = g.u.n;
  Tag i32:b16.0 is 1
  Tag u8:b16.8 is 0
vp->u.n = vp->w.m;
  Null -vp+1
  Bound 0
  Tag u8:*vp.8 is 0
  Null -vp+1
  Bound 0
  Tag i32:*vp.0 is 1
g.u.n = q;
  no rule
g.u.p = 1;
  no rule
zero(g.u);
zero((g.w));
zero(vp->u);
  Null -vp+1
  Bound 0
zero(g);
  no rule
zero(g.t);
  no rule
zero(g.u.n);
  no rule
zero(x);
  no rule
zero(a);
  no rule
zero(q);
  no rule
zero(nowhere);
  no rule
";

#[test]
fn an_assigned_place_keeps_the_types_that_name_it(rt: HostRuntime) -> Result<(), Fail> {
    assert_eq!(rt; wrong_rows(rt.alloc(), &CHECKS, ASSIGNED).as_str(), "");
    Ok(())
}
