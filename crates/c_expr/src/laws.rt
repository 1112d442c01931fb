//! What holds of the grammar of expressions, whatever is read.
ghost use Rattle.std.specs.Prelude.{◌≡◌, List, ◌++◌};
ghost use Rattle.c_tree.specs.declared.expressions.Expr.{Expr};
ghost use Rattle.c_tree.specs.declared.words.Token.{Token};
ghost use Rattle.c_tree.specs.ExpressionGrammar.{IsExpr, Row};
ghost use Rattle.c_tree.specs.Spelling.{spelled};
ghost use Rattle.c_expr.specs.Tokens.{words_of};

/// A list of words is at most one expression.
pub fn one_expression()
    ensures { (w : List Token) (x y : Expr) → IsExpr w x → IsExpr w y → x ≡ y }
{}

/// An expression determines its words.
pub fn determines_words()
    ensures { (w : List Token) (x : Expr) → IsExpr w x → words_of w ≡ spelled x }
{}

/// Words that are an expression by themselves begin with it whatever stands after them.
pub fn stands_before_any_words()
    ensures { (s r : List Token) (x : Expr) → IsExpr s x → Row 0 (s ++ r) r x }
{}
