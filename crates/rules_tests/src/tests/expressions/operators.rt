//! The operators on integers and pointers, casts and sizes.
use super::CHECKS;
use crate::tests::tables::wrong_rows;
use std::test::Fail;

const OPERATORS: &str = "// divisions
x = i / n;
  Div n not 0
x = i % 3;
  Div 3 not 0
x = i / -1;
  Div -1 not 0
x = i / 0;
  Div 0 not 0
x = i / (n + 1);
  Div i32(n + 1) not 0
x = i / ch;
  Div ch not 0
x = i / sizeof(int);
  Div 4 not 0
x = i / -5u;
  Div 4294967291 not 0
x = i / 'a';
  Div 97 not 0
x = i / -'a';
  Div -i32(97) not 0
x = i / +3;
  Div +i32(3) not 0
x = i / (char)n;
  Div u8(n) not 0
x = 1 / (2 / i);
  Div i not 0
  Div i32(2 / i) not 0
x = 1 / i % n;
  Div i not 0
  Div n not 0
x = 1 / p[0];
  Null -p+1
  Bound 0
  Bound -4*n+4
  Div i32:p[4*0] not 0
x = p[0] / i;
  Null -p+1
  Bound 0
  Bound -4*n+4
  Div i not 0
x = i / p;
  no rule
x = p % i;
  no rule
x = i / g;
  no rule
x = i / (void *)0;
  no rule
// comparisons
x = i < n;
x = i <= u;
x = ch > sh;
x = i >= 0;
x = i == n;
x = i != 'a';
x = p < q;
x = p <= hi;
x = p > a;
x = p >= &gi;
x = a == p;
x = p == lo;
x = se != lo;
x = p == 0;
x = p != 0x0;
x = 0 == p;
x = (0) != p;
x = p == (void *)0;
x = (void *)0 != p;
x = t == gt;
x = t < \"ab\";
x = t == 0;
x = t != (void *)0;
x = sp == &g;
x = pp == qq;
x = p + 1 == hi;
  Null -p+1
  Bound -4
  Bound -4*n+4
x = p < 0;
  no rule
x = 0 <= p;
  no rule
x = p < (void *)0;
  no rule
x = p == 1;
  no rule
x = p == i;
  no rule
x = i == p;
  no rule
x = p == 0u;
  no rule
x = p == '\\0';
  no rule
x = p == -0;
  no rule
x = p == cq;
  no rule
x = p == pp;
  no rule
x = p == sp;
  no rule
x = t == cq;
  no rule
x = cq < t;
  no rule
x = (void *)0 == (void *)0;
  no rule
x = (void *)0 == 0;
  no rule
x = i == (void *)0;
  no rule
x = g == g;
  no rule
x = g.u == 0;
  no rule
x = f == 0;
  no rule
// logic
x = !i;
x = !p;
x = !t;
x = !a;
x = !\"ab\";
x = !!p;
x = i && n;
x = p && i;
x = i || p;
x = p || t;
x = p && p[0];
  Null -p+1
  Bound 0
  Bound -4*n+4
x = *lo || *hi;
  Null -lo+1
  Bound 0
  Null -hi+1
  Bound 0
x = !g;
  no rule
x = !g.u;
  no rule
x = !(void *)0;
  no rule
x = i && (void *)0;
  no rule
x = (void *)0 || p;
  no rule
x = p && (void *)0;
  no rule
x = (void *)0 && (void *)0;
  no rule
x = g || i;
  no rule
x = i && f;
  no rule
// integers
x = i + n * 2 - 3 & 4 | 5 ^ ~6 << 7 >> u;
x = -i;
x = +ch;
x = i + g;
  no rule
x = i * p;
  no rule
x = p | i;
  no rule
x = i ^ t;
  no rule
x = i << p;
  no rule
x = a >> i;
  no rule
x = i - (void *)0;
  no rule
x = -g;
  no rule
x = -(void *)0;
  no rule
// casts
x = (char)i;
x = (long)u;
x = (signed char)p[0];
  Null -p+1
  Bound 0
  Bound -4*n+4
x = (int)p;
  no rule
q = (int *)i;
  no rule
q = (int *)q;
  no rule
q = (int *)0;
  no rule
x = (struct s)g;
  no rule
x = (int)g;
  no rule
x = (char)(void *)0;
  no rule
x = (int)t;
  no rule
x = (struct nowhere)i;
  no rule
q = (int *safe)q;
  no rule
// sizes
x = sizeof(struct s);
x = sizeof(int *);
x = sizeof(struct s *);
x = sizeof(int *count(4));
x = sizeof(int *count(-1));
x = sizeof(int *sentinel);
x = sizeof(char *nullterm);
x = sizeof(unsigned char *nullterm);
x = sizeof(int **);
x = sizeof(int *count(2) *safe);
x = sizeof(int *count(n));
  no rule
x = sizeof(int *count(0*n));
  no rule
x = sizeof(int *bound(lo, hi));
  no rule
x = sizeof(int *count(n) *safe);
  no rule
x = sizeof(int *nullterm);
  no rule
x = sizeof(signed char *nullterm);
  no rule
x = sizeof(struct nowhere);
  no rule
x = sizeof(struct nowhere *);
  no rule
";

#[test]
fn integers_and_pointers_are_computed_with(rt: HostRuntime) -> Result<(), Fail> {
    assert_eq!(rt; wrong_rows(rt.alloc(), &CHECKS, OPERATORS).as_str(), "");
    Ok(())
}
