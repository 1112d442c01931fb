//! What the calls that only read say of a few updates.
use crate::tables::READ;
use crate::tracking::{make_all, new_tracked};
use claim_table::{Claims, Holder};
use sd_base::Who;
use share_table::{Shares, Work};
use std::process::Abort;
use std::test::Fail;
use timer_table::{Fired, Timers};

/// Lines, ports and parameters.
fn claims_are_read(rt: &impl Abort, claims: &Claims) {
    let holder = Holder {
        owner: 2,
        handler: 6,
    };
    assert_eq!(rt; claims.holder(9, 1), Some(holder));
    assert!(rt; claims.has_port(1, 71));
    assert_eq!(rt; claims.get_param(5), Some(-3));
}

/// Timers.
fn timers_are_read(rt: &impl Abort, timers: &Timers) {
    let fired = Fired {
        owner: 1,
        id: 3,
        due: 7,
        handler: 8,
        arg: -2,
    };
    assert_eq!(rt; timers.next_due(7), Some(fired));
    assert_eq!(rt; timers.next_due(6), None);
}

/// Locks and masks.
fn holders_are_read(rt: &impl Abort, shares: &Shares) {
    let who = Who { owner: 1, task: 2 };
    assert_eq!(rt; shares.lock_holder(3), Some(who));
    assert!(rt; shares.holds_lock(who));
    assert!(rt; !shares.holds_mask(who));
    assert!(rt; shares.masked());
}

/// Holds and work.
fn counts_are_read(rt: &impl Abort, shares: &Shares) {
    let front = Work {
        owner: 1,
        handler: 6,
        arg: 1,
    };
    assert_eq!(rt; shares.domain_holds(63), 2);
    assert_eq!(rt; shares.front(), Some(front));
}

#[test]
fn what_is_read_is_what_was_asked_for(rt: HostRuntime) -> Result<(), Fail> {
    let mut tracked = new_tracked(rt.alloc(), 4)?;
    make_all(&rt, &mut tracked, READ);
    let kernel = tracked.kernel();
    claims_are_read(&rt, &kernel.claims);
    timers_are_read(&rt, &kernel.timers);
    holders_are_read(&rt, &kernel.shares);
    counts_are_read(&rt, &kernel.shares);
    Ok(())
}
