//! What one driver has live is taken back, and the tables are those of the others' updates alone.
ghost use Rattle.claim_table.specs.ClaimRows.{is_share};
ghost use Rattle.std.specs.Prelude.{◌≡◌, ◌<◌, ◌≤◌, true};

use crate::histories::{
    EACH_KIND, EACH_KIND_UNDONE, RING, RING_UNDONE, SHARED, SHARED_AGAIN, SHARED_UNDONE,
};
use crate::tracking::{first_wrong, make_all, make_others, new_tracked};
use sd_base::{Memory, Steps};
use std::alloc::{AllocError, Global};
use std::marker::Brand;
use std::process::Abort;
use std::sync::ledger::{Blank, Ledger};
use std::test::Fail;
use update_tracker::Tracked;

/// Whether both tables show the same rows, of which there are few.
fn are_same(tracked: &Tracked, others: &Tracked) -> bool {
    for place in 0..40 {
        if tracked.kernel().row(place) != others.kernel().row(place) {
            return false;
        }
    }
    true
}

/// Takes back what a driver has live, which is what is wanted.
fn is_undone<L: Ledger>(
    alloc: Global,
    tracked: &mut Tracked,
    steps: &mut Steps<L>,
    owner: u8,
    wanted: &str,
) -> Result<bool, AllocError>
    requires driver { 0 < owner }
    requires owner { owner ≤ 4 }
{
    tracked.take_back(owner, steps);
    let undone = format!(in alloc; "{:?}", tracked.undone())?;
    Ok(undone.as_str() == wanted)
}

/// Whether the tables show the rows of those updates that are not the owner's.
fn is_without(
    rt: &impl Abort,
    alloc: Global,
    tracked: &Tracked,
    share: u8,
    updates: &str,
    owner: u8,
) -> Result<bool, Memory>
    requires { is_share share ≡ true }
{
    let mut others = new_tracked(alloc, share)?;
    make_others(rt, &mut others, updates, owner);
    Ok(are_same(tracked, &others))
}

/// A history of which one driver is taken back, on tables whose lines may have as many holders as the share; behind it rows with their answers.
fn history<L: Ledger>(
    rt: &impl Abort,
    alloc: Global,
    steps: &mut Steps<L>,
    share: u8,
    updates: &str,
    owner: u8,
    wanted: &str,
    later: &str,
) -> Result<(), Memory>
    requires share { is_share share ≡ true }
    requires driver { 0 < owner }
    requires owner { owner ≤ 4 }
{
    let mut tracked = new_tracked(alloc, share)?;
    make_all(rt, &mut tracked, updates);
    assert!(rt; is_undone(alloc, &mut tracked, steps, owner, wanted)?);
    assert!(rt; is_without(rt, alloc, &tracked, share, updates, owner)?);
    assert_eq!(rt; first_wrong(alloc, &mut tracked, later)?, "");
    Ok(())
}

/// The three histories, with one counter of steps.
fn three_histories<L: Ledger>(rt: &impl Abort, alloc: Global, blank: Blank) -> Result<(), Memory>
    requires name { blank.name ≡ L.name }
    requires parts { blank.parts ≡ L.parts }
    requires some { 0 < L.parts }
{
    let mut steps = Steps::<L>::start(blank);
    history(rt, alloc, &mut steps, 1, RING, 1, RING_UNDONE, "")?;
    history(rt, alloc, &mut steps, 1, EACH_KIND, 2, EACH_KIND_UNDONE, "")?;
    history(
        rt,
        alloc,
        &mut steps,
        4,
        SHARED,
        2,
        SHARED_UNDONE,
        SHARED_AGAIN,
    )
}

#[test]
fn what_a_driver_has_is_taken_back_from_the_newest(rt: HostRuntime) -> Result<(), Fail> {
    three_histories::<Brand>(&rt, rt.alloc(), Blank::new(1))?;
    Ok(())
}
