//! A terminator is not overwritten, unless by another.
ghost use Rattle.std.specs.Prelude.{Some};
ghost use Rattle.sd_base.specs.declared.kinds.CheckKind.TheVariants as kind;
ghost use Rattle.deputy_rules.specs.Deriving as asking;
ghost use Rattle.deputy_rules.specs.Deriving.{Derives};
ghost use Rattle.deputy_rules.specs.declared.asked.AskedCond.TheVariants as cond;

use checked_tree::{Part, Sum};
use deputy_rules::{Asked, AskedCond, DerivingRefusal};
use rules_values::{Context, ask};
use sd_base::CheckKind;
use sqlite_items::Items;

/// Asks that the byte at this address is no terminator, or that this new byte is one.
pub fn ask_terminator(
    ctx: &Context<'_>,
    at: Sum,
    new: Part,
    asked: &mut Items<Asked>,
) -> Result<usize, DerivingRefusal>
    ensures { Derives (asking.ask ctx.now kind.Term (cond.Term at (Some new)) asked.old) result asked.new }
{
    let term = AskedCond::Term { at, new: Some(new) };
    ask(ctx, CheckKind::Term, term, asked)
}
