//! New tracked tables, and rows of updates on them.
ghost use Rattle.claim_table.specs.ClaimRows.{is_share};
ghost use Rattle.std.specs.Prelude.{◌≡◌, true};

use crate::updates::{actor_at, natural_at, signed_at, update_of, word_at};
use kernel_tables::Kernel;
use sd_base::Memory;
use std::alloc::{AllocError, Global};
use std::process::Abort;
use update_tracker::{Tracked, Update, is_proper};

/// New tables, tracked, of whose lines each may have as many holders as the share.
pub(crate) fn new_tracked(alloc: Global, share: u8) -> Result<Tracked, Memory>
    requires { is_share share ≡ true }
{
    let kernel = Kernel::with_share(alloc, share)?;
    Tracked::new(alloc, kernel)
}

/// Makes an update that its owner can ask for, which is accepted.
pub(crate) fn make(rt: &impl Abort, tracked: &mut Tracked, owner: u8, update: Update) {
    assert!(rt; is_proper(owner, update));
    assert!(rt; tracked.update(owner, update).is_ok());
}

/// Makes the updates of a text but for those of one owner. Each is accepted.
pub(crate) fn make_others(rt: &impl Abort, tracked: &mut Tracked, updates: &str, without: u8) {
    for row in updates.lines() {
        let owner = actor_at(row, 0);
        if owner != without {
            make(rt, tracked, owner, update_of(row));
        }
    }
}

/// Makes the updates of a text. Each is accepted.
pub(crate) fn make_all(rt: &impl Abort, tracked: &mut Tracked, updates: &str) {
    make_others(rt, tracked, updates, 255);
}

/// What an update is answered, as it is written.
fn answer(
    alloc: Global,
    tracked: &mut Tracked,
    owner: u8,
    update: Update,
) -> Result<String, AllocError> {
    if is_proper(owner, update) {
        let answer = tracked.update(owner, update);
        format!(in alloc; "=> {answer:?}")
    } else {
        String::from_str(alloc, "=> improper")
    }
}

/// What a row comes to: which row the tables show, who holds a line, or what an update is answered.
fn outcome(alloc: Global, tracked: &mut Tracked, row: &str) -> Result<String, AllocError> {
    match word_at(row, 0) {
        "row" => {
            let shown = tracked.kernel().row(natural_at(row, 1));
            format!(in alloc; "=> {shown:?}")
        }
        "holder" => {
            let holder = tracked
                .kernel()
                .claims
                .holder(signed_at(row, 1), natural_at(row, 2));
            format!(in alloc; "=> {holder:?}")
        }
        _ => answer(alloc, tracked, actor_at(row, 0), update_of(row)),
    }
}

/// Whether a row comes out as it says.
fn is_right(alloc: Global, tracked: &mut Tracked, row: &str) -> Result<bool, AllocError> {
    let found = outcome(alloc, tracked, row)?;
    Ok(row.ends_with(found.as_str()))
}

/// Goes over the rows of a table, and gives the first that comes out otherwise; an empty text where each comes out as it says.
pub(crate) fn first_wrong<'t>(
    alloc: Global,
    tracked: &mut Tracked,
    table: &'t str,
) -> Result<&'t str, AllocError> {
    for row in table.lines() {
        if !is_right(alloc, tracked, row)? {
            return Ok(row);
        }
    }
    Ok("")
}
