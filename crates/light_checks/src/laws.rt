//! What a short text asks for has numbers.
ghost use Rattle.std.specs.Prelude.{◌≡◌, ◌≢◌, ℕ, List, [], All, Some, None, Ok, Err};
ghost use Rattle.c_tree.specs.declared.expressions.Expr.{Expr};
ghost use Rattle.c_tree.specs.declared.items.Function.{Function};
ghost use Rattle.c_tree.specs.declared.items.Unit.{Unit as TextUnit};
ghost use Rattle.c_tree.specs.declared.statements.Action.{Action};
ghost use Rattle.c_tree.specs.declared.statements.Simple.{Simple};
ghost use Rattle.c_tree.specs.Short.{IsShortExpr};
ghost use Rattle.c_tree.specs.ShortUnit.{IsShortUnit};
ghost use Rattle.checked_tree.specs.declared.expressions.CheckedExpr.{CheckedExpr};
ghost use Rattle.checked_tree.specs.declared.statements.CheckedStmt.{CheckedStmt};
ghost use Rattle.deputy_rules.specs.declared.asked.Asked.{Asked};
ghost use Rattle.deputy_rules.specs.declared.derived.Derived.{Derived};
ghost use Rattle.deputy_rules.specs.declared.signature.Returned.{Returned};
ghost use Rattle.deputy_rules.specs.Checking.{Fault};
ghost use Rattle.deputy_rules.specs.Context.{Context};
ghost use Rattle.deputy_rules.specs.Expressions.{derive};
ghost use Rattle.deputy_rules.specs.Numbering.{Numbered, numbered};
ghost use Rattle.deputy_rules.specs.Functions.{check_statements, checked, context_of, text_of};
ghost use Rattle.deputy_rules.specs.Statements.{Home, act, condition, controlling, simple, statement_context};
ghost use Rattle.deputy_types.specs.Table.{Table};
ghost use Rattle.deputy_types.specs.UnitLayout.{layout};
ghost use Rattle.light_checks.specs.Lightness.{IsLightCheck};
ghost use Rattle.light_checks.specs.Faults.{IsRuleFault};
ghost use Rattle.light_checks.specs.ShortActions.{HasShortParts};
ghost use Rattle.light_checks.specs.ShortUnits.{IsFunctionOf, home_of};
ghost use Rattle.light_checks.specs.Unruled.{Tells, UnruledIn};
ghost use Rattle.light_checks.specs.Within.{IsContext, IsHome, IsTable};

/// Light checks have numbers, whatever checks and atoms the function has before them.
pub fn light_checks_have_numbers()
    ensures { (asked : List Asked) → All IsLightCheck asked → (before : Numbered) → numbered asked before ≢ None }
{}

/// A short expression that is derived has checks with numbers.
pub fn an_expression_has_numbers()
    ensures { (ctx : Context) (e : Expr) (d : Derived) (asked : List Asked) (before : Numbered) → IsContext ctx → IsShortExpr e → derive ctx e [] ≡ Some (d, asked) → numbered asked before ≢ None }
{}

/// A short condition that is derived has checks with numbers.
pub fn a_condition_has_numbers()
    ensures { (ctx : Context) (e : Expr) (x : CheckedExpr) (asked : List Asked) (before : Numbered) → IsContext ctx → IsShortExpr e → controlling ctx e [] ≡ Some (x, asked) → numbered asked before ≢ None }
{}

/// A simple statement with short expressions that is derived has checks with numbers.
pub fn a_simple_statement_has_numbers()
    ensures { (ctx : Context) (home : Home) (a : Action) (s : CheckedStmt) (asked : List Asked) (before : Numbered) → IsContext ctx → IsHome home → HasShortParts a → act ctx home a [] ≡ Some (s, asked) → numbered asked before ≢ None }
{}

/// The table of a short unit is within the bounds: sizes, offsets, counts and bases, and the numbers and names of annotations.
pub fn a_short_unit_has_a_table_within()
    ensures { (u : TextUnit) (t : Table) → IsShortUnit u → layout u ≡ Ok t → IsTable t }
{}

/// In a function of a short unit whose declarations stand, a simple statement is refused at its line only where no rule derives it.
pub fn a_refused_statement_has_no_rule()
    ensures { (u : TextUnit) (t : Table) (f : Function) (r : Returned) (s : Simple) (before : Numbered) (e : Fault) → IsFunctionOf u t f r → HasShortParts s.action → simple (context_of t f) (home_of u t r) s before ≡ Err e → act (statement_context (context_of t f) s.line before) (home_of u t r) s.action [] ≡ None }
{}

/// And so is a condition.
pub fn a_refused_condition_has_no_rule()
    ensures { (u : TextUnit) (t : Table) (f : Function) (r : Returned) (line : ℕ) (x : Expr) (before : Numbered) (e : Fault) → IsFunctionOf u t f r → IsShortExpr x → condition (context_of t f) line x before ≡ Err e → controlling (statement_context (context_of t f) line before) x [] ≡ None }
{}

/// And so the statements of a function are refused only on the line of a simple statement or a condition among them, with `NoRule`, that no rule derives.
pub fn a_refused_body_has_a_line_without_rule()
    ensures { (u : TextUnit) (t : Table) (f : Function) (r : Returned) (e : Fault) → IsFunctionOf u t f r → check_statements (text_of t u.items) f r (context_of t f) ≡ Err e → Tells (UnruledIn (context_of t f) (home_of u t r) f.body) e }
{}

/// A short unit whose types are laid out is refused only for a head, a parameter or a local that does not stand, for a prototype, for too many slots, or on the line
/// of a simple statement or a condition that no rule derives: never for the weight of a check.
pub fn a_refused_unit_has_its_reason()
    ensures { (u : TextUnit) (t : Table) (e : Fault) → IsShortUnit u → layout u ≡ Ok t → checked t u ≡ Err e → IsRuleFault u t e }
{}
