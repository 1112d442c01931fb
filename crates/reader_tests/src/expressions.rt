//! Expressions: trees worked by hand, the rows of the operators, and the deepest and the longest.
ghost use Rattle.c_tree.specs.Bytes.{Text};
ghost use Rattle.c_tree.specs.Division.{IsDivision};

use crate::printed::write_expr;
use crate::texts::{Frame, View, words_of, wrong_limits, wrong_rows};
use c_expr::read_expr;
use c_tree::{Expr, Token};
use std::alloc::{AllocError, Global};
use std::test::Fail;

/// The place behind an expression's words, and the expression.
fn written(alloc: Global, tree: &Expr, place: usize) -> Result<String, AllocError> {
    let mut out = format!(in alloc; "{place}: ")?;
    write_expr(&mut out, tree);
    Ok(out)
}

/// How many words the first expression of these words has, and the expression, or its refusal.
fn read_tokens(alloc: Global, words: &[Token]) -> Result<String, AllocError>
    requires { (t : Text) × IsDivision t words.now }
{
    match read_expr(alloc, words, 0) {
        Ok((tree, place)) => written(alloc, &tree, place),
        Err(refusal) => format!(in alloc; "{refusal:?}"),
    }
}

/// The same of a text.
pub fn read_expression(alloc: Global, text: &str) -> Result<String, AllocError> {
    match words_of(alloc, text) {
        Ok(words) => read_tokens(alloc, words.as_slice()),
        Err(refusal) => format!(in alloc; "{refusal:?}"),
    }
}

/// Texts with their first expression, its operators between brackets. The later ones show the rows: each operator with those of its own row, and with the
/// next rows before and behind.
const EXPRESSIONS: &str = "\
a + b * c - d => 7: ((a Add (b Multiply c)) Subtract d)
a - (b - c) => 7: (a Subtract [(b Subtract c)])
- -5 => 3: Minus Minus 5
!*p++ => 3: Not Dereference p
(int)x.y[1] => 9: (cast Int (x.y at 1))
(x).y => 5: [x].y
sizeof(unsigned int) * 2 => 7: (sizeof UnsignedInt Multiply 2)
sizeof(int)[0] => 4: sizeof Int
sizeof x => NoExpr(0)
(void *)0 == p->q => 9: (null Equal p->q)
(void *)0u => NoExpr(0)
(char *nullterm)\"ab\" => 6: (cast Char*nullterm string 0 of 2)
(struct s *safe *count(-1 + 2*n))p => 17: (cast s*safe*count-1+2*n p)
(int *bound(a, b - 1))q => 13: (cast Int*bound a..b-1 q)
(int *count(n + ))q => NoExpr(0)
a[b => 1: a
f(x) => 1: f
a = b => 1: a
a ? b : c => 1: a
'a' || \"\" => 3: ('97' LogicalOr string 0 of 0)
 => NoExpr(0)
) => NoExpr(0)
( a => NoExpr(0)
int => NoExpr(0)
* = 1 => NoExpr(0)
a || b || c => 5: ((a LogicalOr b) LogicalOr c)
a && b && c => 5: ((a LogicalAnd b) LogicalAnd c)
a | b | c => 5: ((a BitOr b) BitOr c)
a ^ b ^ c => 5: ((a BitXor b) BitXor c)
a & b & c => 5: ((a BitAnd b) BitAnd c)
a == b != c == d => 7: (((a Equal b) NotEqual c) Equal d)
a < b > c <= d >= e < f => 11: (((((a Less b) Greater c) LessEqual d) GreaterEqual e) Less f)
a << b >> c << d => 7: (((a ShiftLeft b) ShiftRight c) ShiftLeft d)
a + b - c + d => 7: (((a Add b) Subtract c) Add d)
a * b / c % d * e => 9: ((((a Multiply b) Divide c) Remainder d) Multiply e)
a || b && c | d ^ e & f == g < h << i + j * k => 21: (a LogicalOr (b LogicalAnd (c BitOr (d BitXor (e BitAnd (f Equal (g Less (h ShiftLeft (i Add (j Multiply k))))))))))
a * b + c << d < e == f & g ^ h | i && j || k => 21: ((((((((((a Multiply b) Add c) ShiftLeft d) Less e) Equal f) BitAnd g) BitXor h) BitOr i) LogicalAnd j) LogicalOr k)";

/// Each stands alone.
const ALONE: Frame<'static> = Frame {
    view: View::Expression,
    before: "",
    after: "",
    wanted: "no row",
};

#[test]
fn trees_are_those_of_the_grammar(rt: HostRuntime) -> Result<(), Fail> {
    assert_eq!(rt; wrong_rows(rt.alloc(), &ALONE, EXPRESSIONS)?.as_str(), "");
    Ok(())
}

/// Texts as a piece, how often it stands there, a middle and what stands behind it as often, and how many words the expression has.
const LONG: &str = "\
(|63|- ~ ! + * & - ~ ! + * & - ~ ! + a|)|143:
a + |499|a||999:
(int)|333|a||1000:";

#[test]
fn the_deepest_and_the_longest_are_read(rt: HostRuntime) -> Result<(), Fail> {
    assert_eq!(rt; wrong_limits(rt.alloc(), View::Expression, LONG)?, "");
    Ok(())
}
