//! The table of timers: what is set, taken away, and told.
ghost use Rattle.std.specs.Prelude.{◌≡◌, ◌+◌, ◌≤◌, [], true, false, length, slice_get, IfOk, OnOk, OnErr, MatchOption};
ghost use Rattle.std.specs.List.{list_any, filter};
ghost use Rattle.sd_base.specs.declared.history.Update.TheVariants.{Timer, DelTimer, Fired as Fires};
ghost use Rattle.sd_base.specs.History.{timer_key, live_of};
ghost use Rattle.sd_base.specs.Part.{Serves, Loses};
ghost use Rattle.timer_table.specs.Order.{is_timer, is_due, next_of, timers_of};
ghost use Rattle.timer_table.specs.Table.{HoldsTimers, OfEachHistory, IsNext, set_refusal, del_refusal, refusal_of, with_timer, without_timer};

use crate::Fired;
use crate::edits::{next, put, take_out};
use crate::refusal::TimerRefusal;
use crate::rows::Rows;
use sd_base::{Memory, Steps};
use std::alloc::Global;
use std::marker::Model;
use std::sync::ledger::Ledger;

/// The live timers of all owners, by owner and id.
#[derive(Drop)]
pub struct Timers {
    rows: Rows,
}

impl Model for Timers {
    ghost use Rattle.std.specs.Prelude.{List};
    ghost use Rattle.timer_table.specs.declared.fired.Fired.{Fired};
    ghost use Rattle.timer_table.specs.Table.{IsTable};

    ghost Value = { List Fired };

    ghost view = { λ t. t.rows };

    ghost invariant = { λ t. IsTable t.rows };
}

impl Timers {
    /// No timer, with room for 64 of each owner.
    pub fn new(alloc: Global) -> Result<Timers, Memory>
        ensures empty { IfOk result (λ timers. timers ≡ []) }
        ensures holds { IfOk result (λ timers. HoldsTimers timers []) }
    {
        Ok(Timers {
            rows: Rows::new(alloc)?,
        })
    }

    /// Sets an owner's timer, in the stead of the one that is live under this id.
    ///
    /// `Bad` where the id is not from 0 to 255; `Full` where the owner has 64 live timers and none under this id.
    pub fn set_timer(
        &mut self,
        owner: u8,
        id: i32,
        due: u32,
        handler: u32,
        arg: i32,
    ) -> Result<(), TimerRefusal>
        requires { owner ≤ 4 }
        ensures serves { Serves HoldsTimers self.old owner (Timer id due handler arg) (refusal_of result) self.new }
        ensures answer { refusal_of result ≡ set_refusal self.old owner id }
        ensures set { OnOk result (self.new ≡ with_timer (record { owner = owner; id = id; due = due; handler = handler; arg = arg }) self.old) }
        ensures err { OnErr result (self.new ≡ self.old) }
    {
        let row = Fired {
            owner,
            id,
            due,
            handler,
            arg,
        };
        put(&mut self.rows, row)
    }

    /// Takes an owner's live timer away: it is stopped, or it fires. `Bad` where the owner has none under this id.
    pub fn del_timer(&mut self, owner: u8, id: i32) -> Result<(), TimerRefusal>
        requires { owner ≤ 4 }
        ensures serves_stop { Serves HoldsTimers self.old owner (DelTimer id) (refusal_of result) self.new }
        ensures serves_fire { Serves HoldsTimers self.old owner (Fires id) (refusal_of result) self.new }
        ensures answer { refusal_of result ≡ del_refusal self.old owner id }
        ensures gone { OnOk result (self.new ≡ without_timer owner id self.old) }
        ensures err { OnErr result (self.new ≡ self.old) }
    {
        if !take_out(&mut self.rows, owner, id) {
            return Err(TimerRefusal::Bad);
        }
        Ok(())
    }

    /// The timer to fire next of those that are due by `now`: of least due, then owner, then id. None where none is due.
    pub fn next_due(&self, now: u32) -> Option<Fired>
        ensures value { result ≡ next_of now self.now }
        ensures reads { OfEachHistory self.now (λ h. result ≡ next_of now (timers_of (live_of h))) }
        ensures next { MatchOption result (list_any (is_due now) self.now ≡ false) (IsNext now self.now) }
    {
        next(&self.rows, now)
    }

    /// The live timer at this place by owner and id, counted from 0. None past the last.
    pub fn timer(&self, place: u32) -> Option<Fired>
        ensures { result ≡ slice_get self.now place }
    {
        self.rows.get(place as usize)
    }

    /// How many timers are live.
    pub fn len(&self) -> u32
        ensures { result ≡ length self.now }
    {
        self.rows.len() as u32
    }

    /// Takes away what an owner's live timer put here.
    pub fn remove_timer<L: Ledger>(&mut self, owner: u8, id: i32, steps: &mut Steps<L>)
        requires { list_any (is_timer owner id) self.old ≡ true }
        ensures removed { Loses HoldsTimers self.old owner (timer_key id) self.new }
        ensures gone { self.new ≡ without_timer owner id self.old }
        ensures steps { steps.new ≡ steps.old + 1 }
    {
        take_out(&mut self.rows, owner, id);
        steps.tick();
    }
}
