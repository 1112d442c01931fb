//! The other statements, and the checked form of each.
use super::{CHECKS, FORMS};
use crate::tests::tables::wrong_rows;
use std::test::Fail;

/// `kalloc` and `kfree`, tests, and `return` in a function with an integer result.
const OTHERS: &str = ";
q = kalloc(int, 2);
q = kalloc(long, x);
q = kalloc(int, w);
q = kalloc(int, p[0]);
  Null -p+1
  Bound 0
  Bound -4*n+4
q = kalloc(int, 1 / x);
  Div x not 0
cq = kalloc(char, sizeof(int));
cq = kalloc(unsigned char, -1);
sq = kalloc(struct b, 2);
q = kalloc(char, 2);
  no rule
q = kalloc(unsigned, 2);
  no rule
q = kalloc(struct b, 2);
  no rule
q = kalloc(int *, 2);
  no rule
q = kalloc(struct nowhere, 2);
  no rule
q = kalloc(int, p);
  no rule
q = kalloc(int, (void *)0);
  no rule
q = kalloc(int, nowhere);
  no rule
y = kalloc(int, 2);
  no rule
sl = kalloc(int, 1);
  no rule
l = kalloc(int, 1);
  no rule
p = kalloc(int, 1);
  no rule
x = kalloc(int, 1);
  no rule
tt = kalloc(char, 1);
  no rule
gp = kalloc(int, 1);
  no rule
nowhere = kalloc(int, 1);
  no rule
kfree(q);
kfree(p);
kfree(a);
kfree(0);
kfree((0));
kfree((void *)0);
kfree(p + 1);
  Null -p+1
  Bound -4
  Bound -4*n+4
kfree(t);
  no rule
kfree(\"ab\");
  no rule
kfree(x);
  no rule
kfree(0u);
  no rule
kfree(1);
  no rule
kfree(g);
  no rule
kfree(f);
  no rule
if (x) ;
if (p) { }
if (t) { x = 1; } else x = 2;
if (a) ;
if (\"ab\") ;
if (0) ;
if (p[0]) x = p[1]; else x = p[2];
  Null -p+1
  Bound 0
  Bound -4*n+4
  Null -p+1
  Bound -4
  Bound -4*n+8
  Null -p+1
  Bound -8
  Bound -4*n+12
while (p && p[0]) { x = 1 / w; if (w) { x = *t; } }
  Null -p+1
  Bound 0
  Bound -4*n+4
  Div w not 0
  Null -t+1
if (g) ;
  no rule
if (g.u) ;
  no rule
if (f) ;
  no rule
if ((void *)0) ;
  no rule
if (nowhere) ;
  no rule
if (x) nowhere = 1;
  no rule
if (x) ; else nowhere = 1;
  no rule
while (g) ;
  no rule
while ((void *)0) ;
  no rule
while (x) { ; nowhere = 1; }
  no rule
return x;
return p[0];
  Null -p+1
  Bound 0
  Bound -4*n+4
return w;
return 0;
return;
  no rule
return p;
  no rule
return (void *)0;
  no rule
return g;
  no rule
";

/// The checked form of each statement.
const STATEMENT_FORMS: &str = ";
  3 nothing;
x = 5;
  3 x = i32 5;
j = x;
  3 j = i32 x#1#2#3#4#5;
l = p;
  3 l = p0 p#1#2#3#4#5;
q = p;
  3 q with q.low = p in [p, p + 4*n);
y = p;
  3 y with y.low = p in [p, p + 4*n)#1#2#3#4#5;
p[x] = *p;
  3 p[4*x]#3#4#5 = i32 i32:*p#1#2;
*t = ch;
  3 *t#1 = u8 ch#2;
gp = q;
  3 b112 = p0 q#1#2#3#4#5;
gs = x;
  3 b144 = i16 x;
s.off = x;
  3 b32.12 = i32 x#1#2#3#4#5;
g.t = x;
  3 b16.0 = i32 x#1;
g.u.n = x;
  3 b16.4#1 = i32 x;
vp->u.p = 0;
  3 *vp#1#2.4#3 = p0 null;
zero(g.u);
  3 zero b16.4 of 4;
zero(vp->w);
  3 zero *vp#1#2.12 of 4;
q = kalloc(int, x);
  3 q with q.low = kernel Kalloc(i32 x) handler 0 element 1 of 4;
q = kalloc(int, w);
  3 q with q.low = kernel Kalloc(u32 w) handler 0 element 1 of 4;
cq = kalloc(char, ch);
  3 cq with cq.low = kernel Kalloc(i32 ch) handler 0 element 0 of 1;
kfree(q);
  3 kernel Kfree(q in [q.low, q.high)) handler 0 element 0 of 0;
kfree(0);
  3 kernel Kfree(null in [0, 0)) handler 0 element 0 of 0;
return x;
  3 return i32 x;
return w;
  3 return i32 w;
if (x) ; else return 1;
  3 if x { 3 nothing; } else { 3 return i32 1; }
if (p) { x = 1; ; }
  3 if p { 3 x = i32 1; 3 nothing; } else { }
while (x < 3) { x = x + 1; }
  3 while i32(x < 3) { 3 x = i32 i32(x + 1); }
while (w) while_not_here = 1;
  no rule
if (*p) { x = 1 / x; } else { while (*t) kfree(q); }
  3 if i32:*p#1#2 { 3 x = i32 i32(1 / x)#3; } else { 3 while u8:*t#4 { 3 kernel Kfree(q in [q.low, q.high)) handler 0 element 0 of 0; } }
";

#[test]
fn other_statements_have_the_checks_of_their_expressions(rt: HostRuntime) -> Result<(), Fail> {
    assert_eq!(rt; wrong_rows(rt.alloc(), &CHECKS, OTHERS).as_str(), "");
    assert_eq!(rt;
        wrong_rows(rt.alloc(), &FORMS, STATEMENT_FORMS).as_str(),
        ""
    );
    Ok(())
}
