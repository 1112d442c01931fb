//! All that four owners can have at most, and its undoing in each order of the owners.
ghost use Rattle.std.specs.Prelude.{◌≡◌, ◌<◌, ◌≤◌};

use crate::tables::ONE_MORE;
use crate::tracking::{first_wrong, make, new_tracked};
use crate::updates::actor_at;
use kernel_tables::Row;
use sd_base::{Layout, Memory, Steps};
use std::alloc::Global;
use std::marker::Brand;
use std::process::Abort;
use std::sync::ledger::{Blank, Ledger};
use std::test::Fail;
use update_tracker::{Tracked, Update};

/// Elements of one byte.
const BYTE: Layout = Layout {
    elem: 0,
    size: 1,
    nullterm: false,
};

/// The updates that fill one owner's share of everything: 4,096 blocks and as many releases, 64 lines, 32 ranges of ports, 32 devices,
/// 32 parameters, 64 timers, 16 locks, 512 holds, 64 items of work and 9 masks.
const ALL: u16 = 9_017;

/// The rows of one owner then, but for those that it shares with others.
const OWN_ROWS: u32 = 4_377;

/// The rows that owners share: 32 values of parameters and 64 power domains.
const SHARED_ROWS: u32 = 96;

/// Of those updates the claim at this place: lines, ranges of ports, devices, parameters.
fn claim(owner: u8, place: u16) -> Update {
    let number = i32::from(place);
    let own = i32::from(owner) * 32;
    if place < 64 {
        return Update::Line {
            line: number,
            handler: 0,
        };
    }
    if place < 96 {
        return Update::Ports {
            base: (own + number - 64) * 8,
            n: 8,
        };
    }
    if place < 128 {
        return Update::Device {
            id: own + number - 96,
        };
    }
    Update::Param {
        key: number - 128,
        value: own,
    }
}

/// Of those updates what activities share, at this place: timers, locks, holds, work, masks.
fn share(owner: u8, place: u16) -> Update {
    let number = i32::from(place);
    if place < 64 {
        return Update::Timer {
            id: number,
            due: 5,
            handler: 0,
            arg: 0,
        };
    }
    if place < 80 {
        return Update::Lock {
            lock: i32::from(owner) * 16 - 80 + number,
            task: 8,
        };
    }
    if place < 592 {
        return Update::Hold {
            domain: (number - 80) / 8,
        };
    }
    if place < 656 {
        return Update::Work {
            handler: 0,
            arg: number,
        };
    }
    Update::Mask {
        task: (place % 9) as u8,
    }
}

/// The update at this place among those that fill an owner's share: blocks, their releases, claims, and what activities share.
fn filling(owner: u8, place: u16) -> Update {
    if place < 4_096 {
        return Update::Grant {
            layout: BYTE,
            n: 1,
            image: false,
        };
    }
    if place < 8_192 {
        return Update::Free {
            base: u32::from(place - 4_095) * 16,
        };
    }
    if place < 8_352 {
        return claim(owner, place - 8_192);
    }
    share(owner, place - 8_352)
}

/// Fills the shares of four owners, one update of each in turn.
fn fill(rt: &impl Abort, tracked: &mut Tracked) {
    for place in 0..ALL {
        for owner in 1..5u8 {
            make(rt, tracked, owner, filling(owner, place));
        }
    }
}

/// New tables with four full owners, to whom nothing more is given.
fn new_full(rt: &impl Abort, alloc: Global) -> Result<Tracked, Memory> {
    let mut tracked = new_tracked(alloc, 4)?;
    fill(rt, &mut tracked);
    assert_eq!(rt; first_wrong(alloc, &mut tracked, ONE_MORE)?, "");
    Ok(tracked)
}

/// Takes back an owner's updates, which takes its own rows along, and none of those of the owners that are left.
fn take_back<L: Ledger>(
    rt: &impl Abort,
    tracked: &mut Tracked,
    steps: &mut Steps<L>,
    owner: u8,
    left: u32,
)
    requires left { left ≤ 3 }
{
    assert!(rt; 0 < owner && owner <= 4);
    tracked.take_back(owner, steps);
    let rows = OWN_ROWS * left + if left == 0 { 0 } else { SHARED_ROWS };
    assert!(rt; tracked.undone().len() == usize::from(ALL));
    assert!(rt; tracked.kernel().row(rows) == Some(Row::Clock { now: 0 }));
    assert!(rt; tracked.kernel().grants.blocks(owner).len() == 0);
}

/// Takes back the four owners' in this order.
fn undo_in_order<L: Ledger>(
    rt: &impl Abort,
    alloc: Global,
    steps: &mut Steps<L>,
    order: &str,
) -> Result<(), Memory> {
    let mut tracked = new_full(rt, alloc)?;
    for place in 0..4 {
        let owner = actor_at(order, place);
        take_back(rt, &mut tracked, steps, owner, 3 - place as u32);
    }
    Ok(())
}

/// The orders of four owners.
const ORDERS: &str = "\
1 2 3 4
1 2 4 3
1 3 2 4
1 3 4 2
1 4 2 3
1 4 3 2
2 1 3 4
2 1 4 3
2 3 1 4
2 3 4 1
2 4 1 3
2 4 3 1
3 1 2 4
3 1 4 2
3 2 1 4
3 2 4 1
3 4 1 2
3 4 2 1
4 1 2 3
4 1 3 2
4 2 1 3
4 2 3 1
4 3 1 2
4 3 2 1
";

/// Each order, with one counter of steps.
fn each_order<L: Ledger>(rt: &impl Abort, alloc: Global, blank: Blank) -> Result<(), Memory>
    requires name { blank.name ≡ L.name }
    requires parts { blank.parts ≡ L.parts }
    requires some { 0 < L.parts }
{
    let mut steps = Steps::<L>::start(blank);
    for order in ORDERS.lines() {
        undo_in_order(rt, alloc, &mut steps, order)?;
    }
    Ok(())
}

#[test]
fn four_full_owners_are_taken_back_in_each_order(rt: HostRuntime) -> Result<(), Fail> {
    each_order::<Brand>(&rt, rt.alloc(), Blank::new(1))?;
    Ok(())
}
