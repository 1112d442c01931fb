//! Nested forms: bounds that name one sibling twice, structs in structs, pointers to pointers, and casts that are one expression with a conversion.
use super::tables::{Frame, wrong_rows};
use super::texts::View;
use std::test::Fail;

/// The blocks are `g` at 16 up to 36, `ga` at 48 up to 60, `gt` at 64 up to 72. In `struct o`, of 20 bytes: `w` at 0, with its tag at 0 and its union at 4; `a` at 8; `k` at 16.
const NESTED: Frame<'static> = Frame {
    before: "struct n { int k; struct n *count(k) next; }; struct i { int t; union { int a when (t == 0); int *safe b when (t == 1); struct n *safe c when (t == 2); } u; }; \
struct o { struct i w; int *safe a[2]; int k; }; struct o g; int *ga[3]; char *nullterm gt[2]; \
int give(int *count(n) p, int n) { return 1; }
int f(struct n *safe np, struct o *safe op, int *bound(a, a + n) b, int *a, int n, char *nullterm *count(2) tp, int **pp, int *count(2*m + m) d, int m, char *nullterm t, \
int *bound(e, e + 3) h, int *e) { int x; int *q; unsigned w; struct n *nq;
",
    after: "\n}",
    function: 1,
    view: View::Checks,
    line: 3,
};

const ROWS: &str = "a = q;
  Bound q.low-q | q
  Bound 0 | q
  Bound -4 | q
  Bound q-q.high+4 | q
  Align 0 by 4 | q
  Change -q+a | b
  Change q-b | b
  Change -q+b-4*n | b
  Change q-a | b
  Change -q+b by 4 | b
e = 0;
  Change e | h
  Change -h | h
  Change h-12 | h
  Change -e | h
  Change h by 4 | h
m = x;
  Change 0 | d
  Change 0 | d
  Change -12*x | d
  Change 12*x-12*m | d
  Change 0 by 4 | d
np->next->k = 1;
  Null -np+1
  Bound 0
  Null -p0:*np.4+1
  Bound -8*i32:*np.0+8
  Change 0 | p0:*p0:*np.4.4
  Change 0 | p0:*p0:*np.4.4
  Change -8 | p0:*p0:*np.4.4
  Change -8*i32:*p0:*np.4.0+8 | p0:*p0:*np.4.4
  Change 0 by 8 | p0:*p0:*np.4.4
np->next = nq;
  Null -np+1
  Bound 0
  Bound nq.low-nq | nq
  Bound 0 | nq
  Bound -8*i32:*np.0 | nq
  Bound nq+8*i32:*np.0-nq.high | nq
  Align 0 by 8 | nq
nq = &np->next[x];
  Null -np+1
  Bound 0
  Null -p0:*np.4+1
  Bound -8*x
  Bound 8*x-8*i32:*np.0+8
x = g.w.u.a;
  Tag i32:b16.0.0 is 0
op->w.u.b = 0;
  Null -op+1
  Bound 0
  Tag i32:*op.0.0 is 1
op->w.t = x;
  Null -op+1
  Bound 0
  Change old i32:*op.0.0 new x at op+4 bytes 4
q = &*g.w.u.b;
  Tag i32:b16.0.0 is 1
  Null -p0:b16.0.4+1
  Bound 0
x = g.w.u.c->k;
  Tag i32:b16.0.0 is 2
  Null -p0:b16.0.4+1
  Bound 0
zero(op->w.u);
  Null -op+1
  Bound 0
g.a[x] = q;
  Bound -4*x
  Bound 4*x-4
  Bound q.low-q | q
  Bound 0 | q
  Bound -4 | q
  Bound q-q.high+4 | q
  Align 0 by 4 | q
ga[1] = ga[0];
  Bound 0
  Bound -8
  Bound -4
  Bound -4
  Bound 0 | p0:&b48[4*0]
  Bound 0 | p0:&b48[4*0]
  Bound -4 | p0:&b48[4*0]
  Bound 0 | p0:&b48[4*0]
  Align 0 by 4 | p0:&b48[4*0]
*pp = q;
  Null -pp+1
  Bound 0
  Bound q.low-q | q
  Bound 0 | q
  Bound -4 | q
  Bound q-q.high+4 | q
  Align 0 by 4 | q
*tp = t;
  Null -tp+1
  Bound -4
tp[1][0] = 5;
  Null -tp+1
  Bound -4
  Bound 0
  Null -p0:tp[4*1]+1
  Term at p0:tp[4*1] new 5
*gt[1] = 'a';
  Bound -4
  Bound 0
  Null -p0:&b64[4*1]+1
  Term at p0:&b64[4*1] new 97
*t = (char)x;
  Null -t+1
  Term at t new u8(u8(x))
*t = (signed char)t[0];
  Null -t+1
  Null -t+1
  Term at t new u8(i8(u8:*t))
x = give(q + (int)w, w);
  Null -q+1
  Bound -q+q.low-4*i32(w)
  Bound q+4*i32(w)-q.high
  Bound -q+q.low-4*i32(w) | q+4*i32(w)
  Bound 0 | q+4*i32(w)
  Bound -4*i32(w) | q+4*i32(w)
  Bound q+8*i32(w)-q.high | q+4*i32(w)
  Align 0 by 4 | q+4*i32(w)
x = q[0x80000000];
  Null -q+1
  Bound q-q.high+8589934596
q = q - 0x80000000;
  Null -q+1
  Bound -q+q.low+8589934592
x = 1 / -(5);
  Div -5 not 0
x = 1 / -(-5);
  Div -i32(-5) not 0
x = 1 / -0;
  Div 0 not 0
x = a == 0 && !g.a;
&*q = q;
  no rule
g.w = g.w;
  no rule
*np = *np;
  no rule
nq = &g.w.u.c->next;
  no rule
nq = &*np->next;
  Null -np+1
  Bound 0
  Null -p0:*np.4+1
  Bound -8*i32:*np.0+8
";

#[test]
fn nested_forms_have_the_checks_of_their_parts(rt: HostRuntime) -> Result<(), Fail> {
    assert_eq!(rt; wrong_rows(rt.alloc(), &NESTED, ROWS).as_str(), "");
    Ok(())
}
