//! Names, and what a pointer points at.
use super::CHECKS;
use crate::tests::tables::wrong_rows;
use std::test::Fail;

const PLACES: &str = "// names
x = i;
x = gi;
x = gs;
x = gu;
x = nowhere;
  no rule
x = f;
  no rule
x = g;
  no rule
x = p;
  no rule
x = a;
  no rule
x = printd;
  no rule
// followed
x = *p;
  Null -p+1
  Bound -4*n+4
x = *lo;
  Null -lo+1
  Bound 0
x = *q;
  Null -q+1
  Bound q-q.high+4
x = *b;
  Null -b+1
  Bound b-hi+4
x = *se;
  Null -se+1
  Bound 4
x = *a;
  Bound -12
x = *gp;
  Null -p0:b128+1
  Bound 0
x = *&gi;
  Bound 0
x = *(p + 1);
  Null -p+1
  Bound -4
  Bound -4*n+4
  Bound -4*n+8
x = **pp;
  Null -pp+1
  Bound -4*n+4
  Null -p0:*pp+1
  Bound 0
x = *i;
  no rule
x = *g;
  no rule
x = *f;
  no rule
x = *sp;
  no rule
x = *t;
  Null -t+1
x = *gt;
  Null -p0:b112+1
x = *\"ab\";
x = **t;
  no rule
x = *(void *)0;
  no rule
x = *0;
  no rule
";

#[test]
fn names_are_read_and_pointers_followed_under_their_checks(rt: HostRuntime) -> Result<(), Fail> {
    assert_eq!(rt; wrong_rows(rt.alloc(), &CHECKS, PLACES).as_str(), "");
    Ok(())
}
