//! Locals assigned, and the types that name them.
use super::CHECKS;
use crate::tests::tables::wrong_rows;
use std::test::Fail;

const LOCALS: &str = "// integer locals
x = 5;
n = 5;
  Change 0 | p
  Change 0 | p
  Change -20 | p
  Change -4*n+20 | p
  Change 0 by 4 | p
  Change 0 | b
  Change lo-b | b
  Change b-hi-20 | b
  Change -4*n+20 | b
  Change -lo+b by 4 | b
n = n + 1;
  Change 0 | p
  Change 0 | p
  Change -4*i32(n + 1) | p
  Change 4*i32(n + 1)-4*n | p
  Change 0 by 4 | p
  Change 0 | b
  Change lo-b | b
  Change -4*i32(n + 1)+b-hi | b
  Change 4*i32(n + 1)-4*n | b
  Change -lo+b by 4 | b
m = 3;
  Change 0 | cp
  Change 0 | cp
  Change -3 | cp
  Change -m+3 | cp
j = ch;
  Change 0 | l
  Change 0 | l
  Change -4*ch | l
  Change 4*ch-4*j | l
  Change 0 by 4 | l
j = sh;
  Change 0 | l
  Change 0 | l
  Change -4*sh | l
  Change 4*sh-4*j | l
  Change 0 by 4 | l
j = w;
  Change 0 | l
  Change 0 | l
  Change -4*i32(w) | l
  Change 4*i32(w)-4*j | l
  Change 0 by 4 | l
j = (char)x;
  Change 0 | l
  Change 0 | l
  Change -4*u8(x) | l
  Change 4*u8(x)-4*j | l
  Change 0 by 4 | l
j = x + w;
  Change 0 | l
  Change 0 | l
  Change -4*i32(u32(x + w)) | l
  Change 4*i32(u32(x + w))-4*j | l
  Change 0 by 4 | l
j = x < w;
  Change 0 | l
  Change 0 | l
  Change -4*u32(x < w) | l
  Change 4*u32(x < w)-4*j | l
  Change 0 by 4 | l
j = 4294967295u;
  Change 0 | l
  Change 0 | l
  Change 4 | l
  Change -4*j-4 | l
  Change 0 by 4 | l
j = gs;
  Change 0 | l
  Change 0 | l
  Change -4*i16:b144 | l
  Change 4*i16:b144-4*j | l
  Change 0 by 4 | l
j = l[0];
  Null -l+1
  Bound 0
  Bound -4*j+4
  Change 0 | l
  Change 0 | l
  Change -4*i32:l[4*0] | l
  Change -4*j+4*i32:l[4*0] | l
  Change 0 by 4 | l
j = j;
  Change 0 | l
  Change 0 | l
  Change -4*j | l
  Change 0 | l
  Change 0 by 4 | l
(j) = 1;
  Change 0 | l
  Change 0 | l
  Change -4 | l
  Change -4*j+4 | l
  Change 0 by 4 | l
ch = x;
sh = w;
x = p;
  no rule
x = (void *)0;
  no rule
x = g;
  no rule
x = f;
  no rule
x = \"ab\";
  no rule
// pointer locals
l = q;
  Bound q.low-q | q
  Bound 0 | q
  Bound -4*j | q
  Bound q+4*j-q.high | q
  Align 0 by 4 | q
l = p;
  Bound 0 | p
  Bound 0 | p
  Bound -4*j | p
  Bound 4*j-4*n | p
  Align 0 by 4 | p
l = b;
  Bound lo-b | b
  Bound 0 | b
  Bound -4*j | b
  Bound b+4*j-hi-4*n | b
  Align 0 by 4 | b
l = a;
  Bound 0 | 64
  Bound 0 | 64
  Bound -4*j | 64
  Bound 4*j-16 | 64
  Align 0 by 4 | 64
l = &gi;
  Bound 0 | 96
  Bound 0 | 96
  Bound -4*j | 96
  Bound 4*j-4 | 96
  Align 0 by 4 | 96
l = q + 1;
  Null -q+1
  Bound -q+q.low-4
  Bound q-q.high+4
  Bound -q+q.low-4 | q+4
  Bound 0 | q+4
  Bound -4*j | q+4
  Bound q-q.high+4*j+4 | q+4
  Align 0 by 4 | q+4
l = 0;
l = (void *)0;
l = (0);
l = 00;
sl = q;
  Bound q.low-q | q
  Bound 0 | q
  Bound -4 | q
  Bound q-q.high+4 | q
  Align 0 by 4 | q
e = q;
  Bound q.low-q | q
  Bound 0 | q
  Bound 0 | q
  Bound q-q.high | q
  Align 0 by 4 | q
cp = cq;
  Bound cq.low-cq | cq
  Bound 0 | cq
  Bound -m | cq
  Bound cq+m-cq.high | cq
cp = text;
  Bound 0 | 80
  Bound 0 | 80
  Bound -m | 80
  Bound m-8 | 80
r = q;
  Bound q.low-y | q
  Bound y-q | q
  Bound q-z | q
  Bound z-q.high | q
  Align -y+q by 4 | q
y = q;
  Change y-q | r
  Change q-r | r
  Change r-z | r
  Change 0 | r
  Change -q+r by 4 | r
z = q;
  Change 0 | r
  Change y-r | r
  Change r-q | r
  Change q-z | r
  Change -y+r by 4 | r
y = 0;
  Change y | r
  Change -r | r
  Change r-z | r
  Change 0 | r
  Change r by 4 | r
y = q + 1;
  Null -q+1
  Bound -q+q.low-4
  Bound q-q.high+4
  Change -q+y-4 | r
  Change q-r+4 | r
  Change r-z | r
  Change 0 | r
  Change -q+r-4 by 4 | r
hi = q;
  Bound q.low-q | q
  Bound 0 | q
  Bound -8 | q
  Bound q-q.high+8 | q
  Align 0 by 4 | q
  Change 0 | b
  Change lo-b | b
  Change -q+b-4*n | b
  Change q-hi | b
  Change -lo+b by 4 | b
lo = q;
  Bound q.low-q | q
  Bound 0 | q
  Bound -4 | q
  Bound q-q.high+4 | q
  Align 0 by 4 | q
  Change -q+lo | b
  Change q-b | b
  Change b-hi-4*n | b
  Change 0 | b
  Change -q+b by 4 | b
b = q;
  Bound q.low-lo | q
  Bound lo-q | q
  Bound q-hi-4*n | q
  Bound hi+4*n-q.high | q
  Align -lo+q by 4 | q
q = l;
q = 0;
cq = text;
tt = t;
sq = sp;
l = cq;
  no rule
l = t;
  no rule
l = x;
  no rule
l = 5;
  no rule
l = 0u;
  no rule
l = 0L;
  no rule
l = '\\0';
  no rule
l = -0;
  no rule
q = x;
  no rule
q = cq;
  no rule
q = sq;
  no rule
cq = t;
  no rule
tt = cq;
  no rule
tt = text;
  no rule
q = &x;
  no rule
q = g;
  no rule
q = f;
  no rule
";

#[test]
fn an_assigned_local_keeps_the_types_that_name_it(rt: HostRuntime) -> Result<(), Fail> {
    assert_eq!(rt; wrong_rows(rt.alloc(), &CHECKS, LOCALS).as_str(), "");
    Ok(())
}
