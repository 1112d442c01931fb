//! The undoing of one live update, and of all that an owner has.
ghost use Rattle.std.specs.Prelude.{◌≡◌, ◌+◌, ◌≤◌, true, eqb, length};
ghost use Rattle.sd_base.specs.Selection.{passes};
ghost use Rattle.share_table.specs.Locks.{lock_at};
ghost use Rattle.update_tracker.specs.NetRows.{no_rows};
ghost use Rattle.update_tracker.specs.NetPart.{read_back};
ghost use Rattle.update_tracker.specs.Undoing.{CanUndo, Undoes, LosesLock, HasLive, LosesAll, cost_of, cost_of_all};

use crate::net_log::NetLog;
use crate::undo::Undo;
use crate::undone::Undone;
use kernel_tables::Kernel;
use sd_base::{Steps, Who};
use share_table::Shares;
use std::sync::ledger::Ledger;

/// Takes away the lock that an activity of the owner holds.
fn undo_lock<L: Ledger>(shares: &mut Shares, owner: u8, lock: i32, steps: &mut Steps<L>)
    requires { passes (λ who. eqb who.owner owner) (lock_at shares.old.locks lock) ≡ true }
    ensures loses { LosesLock shares.old owner lock shares.new }
    ensures steps { steps.new ≤ steps.old + 1 }
{
    if let Some(who) = shares.lock_holder(lock) {
        shares.remove_lock(who, lock, steps);
    }
}

/// Takes away what one live update of an owner put into the tables.
fn undo<L: Ledger>(kernel: &mut Kernel, owner: u8, item: Undo, steps: &mut Steps<L>)
    requires owner { owner ≤ 4 }
    requires can { CanUndo kernel.old owner item }
    ensures undoes { Undoes kernel.old owner item kernel.new }
    ensures clock { kernel.new.now ≡ kernel.old.now }
    ensures share { kernel.new.claims.share ≡ kernel.old.claims.share }
    ensures steps { steps.new ≤ steps.old + cost_of item }
{
    match item {
        Undo::Block(base) => kernel.grants.remove_block(owner, base, steps),
        Undo::Free(base) => kernel.grants.remove_free(owner, base, steps),
        Undo::Line(line) => kernel.claims.remove_line(owner, line, steps),
        Undo::Ports(base, n) => kernel.claims.remove_ports(owner, base, n, steps),
        Undo::Device(id) => kernel.claims.remove_device(owner, id, steps),
        Undo::Param(key) => kernel.claims.remove_param(owner, key, steps),
        Undo::Timer(id) => kernel.timers.remove_timer(owner, id, steps),
        Undo::Lock(lock) => undo_lock(&mut kernel.shares, owner, lock, steps),
        Undo::Mask(task) => kernel.shares.remove_mask(Who { owner, task }, steps),
        Undo::Hold(domain) => kernel.shares.remove_hold(owner, domain, steps),
        Undo::Work(_, _) => kernel.shares.remove_work(owner, steps),
    }
}

/// Takes away all that an owner has live, from the newest entry of its log, and lists it.
pub fn undo_log<L: Ledger>(
    kernel: &mut Kernel,
    owner: u8,
    log: &mut NetLog,
    undone: &mut Undone,
    steps: &mut Steps<L>,
)
    requires owner { owner ≤ 4 }
    requires some { HasLive kernel.old owner (read_back log.old) }
    requires room { length (read_back log.old) ≤ 9065 }
    ensures loses { LosesAll kernel.old owner (read_back log.old) kernel.new }
    ensures clock { kernel.new.now ≡ kernel.old.now }
    ensures share { kernel.new.claims.share ≡ kernel.old.claims.share }
    ensures log { log.new ≡ no_rows }
    ensures undone { undone.new ≡ read_back log.old }
    ensures steps { steps.new ≤ steps.old + cost_of_all (read_back log.old) }
{
    undone.clear();
    while let Some(item) = log.pop() {
        undo(kernel, owner, item, steps);
        undone.push(item);
    }
}
