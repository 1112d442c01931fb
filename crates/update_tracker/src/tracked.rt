//! The kernel's tables in step with a history.
ghost use Rattle.std.specs.Prelude.{◌≡◌, ◌+◌, ◌<◌, ◌≤◌, [], true, IfOk, OnErr};
ghost use Rattle.sd_base.specs.Allowed.{is_proper};
ghost use Rattle.sd_base.specs.History.{net_of, Without};
ghost use Rattle.kernel_tables.specs.Standing.{StandsFor};
ghost use Rattle.update_tracker.specs.Entries.{AreItemsOf};
ghost use Rattle.update_tracker.specs.Undoing.{steps_for};
ghost use Rattle.update_tracker.specs.Tracking.{Stands, ServesTracked, OfEachHistory};

use crate::net_log::NetLog;
use crate::requests::ask;
use crate::undo::{Reply, Undo};
use crate::undoing::undo_log;
use crate::undone::Undone;
use kernel_tables::Kernel;
use sd_base::{Memory, Refusal, Steps, Update};
use std::alloc::Global;
use std::marker::Model;
use std::sync::ledger::Ledger;

/// The kernel's tables with a log of what each owner has live, from the kernel, which is 0, to the driver 4.
///
/// It stands for a lawful history: a list of the updates that were accepted, each with its owner.
#[derive(Drop)]
pub struct Tracked {
    kernel: Kernel,
    logs: [NetLog; 5],
    undone: Undone,
}

impl Model for Tracked {
    ghost use Rattle.update_tracker.specs.Tracking.{TrackedRows, HasHistory};

    ghost Value = { TrackedRows };

    ghost view = { λ a. record { kernel = a.kernel; logs = a.logs; undone = a.undone } };

    ghost invariant = { λ a. HasHistory (record { kernel = a.kernel; logs = a.logs; undone = a.undone }) };
}

impl Tracked {
    /// A new kernel, tracked: it stands for the empty history. All memory that the logs ever take is taken here.
    pub fn new(alloc: Global, kernel: Kernel) -> Result<Tracked, Memory>
        requires { StandsFor kernel [] }
        ensures stands { IfOk result (λ tracked. Stands tracked []) }
        ensures kernel { IfOk result (λ tracked. tracked.kernel ≡ kernel) }
        ensures undone { IfOk result (λ tracked. tracked.undone ≡ []) }
    {
        let logs = [
            NetLog::new(alloc)?,
            NetLog::new(alloc)?,
            NetLog::new(alloc)?,
            NetLog::new(alloc)?,
            NetLog::new(alloc)?,
        ];
        let undone = Undone::new(alloc)?;
        Ok(Tracked {
            kernel,
            logs,
            undone,
        })
    }

    /// Makes an owner's update, or refuses it as the history says. What is refused changes nothing.
    ///
    /// The owner is the kernel, 0, or a driver, 1 to 4. A granted block's elements have a byte, and a task is 0 to 8. The
    /// kernel asks for lines, parameters, holds, locks with task 0, and the clock, which is its alone.
    ///
    /// A grant is answered by the base of the block. `NoRoom` where it has none; `NotBlock` and `Freed` at a release of what
    /// is not allocated and of what was given back before; `Busy` where a line, a port, a device or the activity's mask is
    /// held; `HeldBy` with the holder of a lock; `Unheld` where the activity does not hold the lock or the mask; `Full` where
    /// the owner has as many of the kind as it may have; `Bad` where a number is out of range, where the owner has not what
    /// the update ends, where the front of the queue is not its own, and where the clock would go back.
    pub fn update(&mut self, owner: u8, update: Update) -> Result<Reply, Refusal>
        requires { is_proper owner update ≡ true }
        ensures serves { ServesTracked self.old owner update result self.new }
        ensures undone { self.new.undone ≡ self.old.undone }
        ensures share { self.new.kernel.claims.share ≡ self.old.kernel.claims.share }
        ensures err { OnErr result (self.new ≡ self.old) }
    {
        let reply = match ask(&mut self.kernel, owner, update) {
            Ok(reply) => reply,
            Err(refusal) => return Err(refusal),
        };
        let log = &mut self.logs[usize::from(owner)];
        log.note(update, reply);
        Ok(reply)
    }

    /// Takes back all that a driver has live, from its newest entry to its oldest, whatever other owners did in between. Then
    /// the tables stand for the history without the driver's entries.
    ///
    /// One step is one change of a row of a table, or one move of an item of the work queue.
    pub fn take_back<L: Ledger>(&mut self, owner: u8, steps: &mut Steps<L>)
        requires driver { 0 < owner }
        requires owner { owner ≤ 4 }
        ensures without { OfEachHistory self.old (λ h. Stands self.new (Without h owner)) }
        ensures share { self.new.kernel.claims.share ≡ self.old.kernel.claims.share }
        ensures undone { OfEachHistory self.old (λ h. AreItemsOf self.new.undone (net_of h owner)) }
        ensures steps { OfEachHistory self.old (λ h. steps.new ≤ steps.old + steps_for (net_of h owner)) }
    {
        let log = &mut self.logs[usize::from(owner)];
        undo_log(&mut self.kernel, owner, log, &mut self.undone, steps);
    }

    /// What the last `take_back` took back, from the newest entry, or nothing before the first.
    pub fn undone(&self) -> &[Undo]
        ensures { result.now ≡ self.now.undone }
    {
        self.undone.as_slice()
    }

    /// The tables.
    pub fn kernel(&self) -> &Kernel
        ensures { result.now ≡ self.now.kernel }
    {
        &self.kernel
    }
}
