//! `ask`: the checks that a statement asks for, one after another.
ghost use Rattle.deputy_rules.specs.Deriving as spec;
ghost use Rattle.deputy_rules.specs.Deriving.{Derives};

use crate::Context;
use deputy_rules::{Asked, AskedCond, DerivingRefusal};
use sd_base::CheckKind;
use sqlite_items::Items;

/// Asks for the next check, of this kind and condition. Answers its number, counted on from the checks that the function has before the statement. The only
/// refusal is want of memory.
pub fn ask(
    ctx: &Context<'_>,
    kind: CheckKind,
    cond: AskedCond,
    asked: &mut Items<Asked>,
) -> Result<usize, DerivingRefusal>
    ensures { Derives (spec.ask ctx.now kind cond asked.old) result asked.new }
{
    asked.push(Asked {
        line: ctx.line,
        kind,
        cond,
    })?;
    Ok(ctx.first + asked.as_slice().len())
}
