//! An expression by itself.
ghost use Rattle.std.specs.Prelude.{◌≡◌, [], None, Err};
ghost use Rattle.c_tree.specs.declared.expressions.Expr.{Expr};
ghost use Rattle.c_tree.specs.Short.{IsShortExpr};
ghost use Rattle.deputy_rules.specs.Checking.{Fault, NoRule};
ghost use Rattle.deputy_rules.specs.Context.{Context};
ghost use Rattle.deputy_rules.specs.Expressions.{expression};
ghost use Rattle.deputy_rules.specs.Numbering.{Numbered};
ghost use Rattle.deputy_rules.specs.Statements.{expression_alone, statement_context};
ghost use Rattle.light_checks.specs.Alone.{IsInFunction};

/// A short expression in a function of a short unit is refused by itself only where no rule derives it, and at the line of its context. With the contract of `check_expr`,
/// which answers as `expression_alone` does, it has `NoRule` exactly where no rule derives its expression.
pub fn an_expression_alone_is_refused_where_no_rule_derives_it()
    ensures { (ctx : Context) (e : Expr) (before : Numbered) (fault : Fault) → IsInFunction ctx → IsShortExpr e → expression_alone ctx e before ≡ Err fault → (fault ≡ NoRule ctx.line) × (expression (statement_context ctx ctx.line before) e [] ≡ None) }
{}
