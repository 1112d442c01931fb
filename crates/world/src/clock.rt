//! `tick N`: the clock goes on, and the timers that are due fire.
ghost use Rattle.std.specs.Prelude.{◌≡◌, ◌<◌, ◌≤◌, ℕ, List, Option, false};
ghost use Rattle.driver_host.specs.Granting.{last_moment};
ghost use Rattle.world.specs.Ready.{IsReady, NextTimer};
ghost use Rattle.world.specs.Standing.{units_of, here, Leads};
ghost use Rattle.world_core.specs.Clock.{fires, fires_all, ticks_to, tick};
ghost use Rattle.world_core.specs.Script as script;
ghost use Rattle.sd_base.specs.declared.history.Update.TheVariants as update;
ghost use Rattle.world_core.specs.WorldState.{is_over};

use crate::drivers::Drivers;
use crate::live::Live;
use driver_host::{Ground, run_changes};
use run_report::{Item, Report};
use sd_base::Update;
use sd_outside::Sink;
use timer_table::Fired;

/// The last moment that the clock may reach.
const LAST_MOMENT: u64 = 2_000_000_000;

/// The timer that fires next of those that are due by this moment, where the run goes on.
fn next_timer(ground: &Ground, moment: u32) -> Option<Fired>
    ensures { NextTimer ground.now moment result }
{
    if run_changes::is_over(&ground.run) {
        return None;
    }
    ground.host.next_due(moment)
}

impl Live {
    /// A timer fires: the clock becomes its due, and its handler runs with its argument.
    fn fire<K: Sink>(&mut self, drivers: &Drivers, report: &mut Report, sink: &mut K, timer: Fired)
        requires ready { IsReady (units_of drivers.now.list.items) (here self.old report.old (K.written sink.old) (K.faults sink.old)) }
        requires goes { is_over self.old.ground.run ≡ false }
        requires driver { 0 < timer.owner }
        requires owner { timer.owner ≤ 4 }
        requires due { timer.due ≤ last_moment }
        ensures { Leads (units_of drivers.now.list.items) (here self.old report.old (K.written sink.old) (K.faults sink.old))
            (here self.new report.new (K.written sink.new) (K.faults sink.new)) (fires timer) }
    {
        let _clock = self.ground.host.update(0, Update::Clock { now: timer.due });
        let _fired = self
            .ground
            .host
            .update(timer.owner, Update::Fired { id: timer.id });
        let item = Item::Timer {
            driver: timer.owner,
            id: timer.id,
        };
        self.ground.say(report, sink, &item);
        self.handle(drivers, report, sink, timer.owner, timer.handler, timer.arg);
        self.deliver(drivers, report, sink);
    }

    /// While a timer is due by this moment, the first of them fires.
    fn fire_all<K: Sink>(
        &mut self,
        drivers: &Drivers,
        report: &mut Report,
        sink: &mut K,
        moment: u32,
    )
        requires ready { IsReady (units_of drivers.now.list.items) (here self.old report.old (K.written sink.old) (K.faults sink.old)) }
        requires moment { moment ≤ last_moment }
        ensures { Leads (units_of drivers.now.list.items) (here self.old report.old (K.written sink.old) (K.faults sink.old))
            (here self.new report.new (K.written sink.new) (K.faults sink.new)) (fires_all moment) }
    {
        let turns = u64::from(self.ground.run.left) + 1;
        for _turn in 0..turns {
            match next_timer(&self.ground, moment) {
                None => return,
                Some(timer) => self.fire(drivers, report, sink, timer),
            }
        }
    }

    /// The clock is at this moment, unless the run is over.
    fn set_clock(&mut self, drivers: &Drivers, report: &mut Report, moment: u32)
        requires { moment ≤ last_moment }
        ensures { (written : Option (List ℕ)) (faults : ℕ) → Leads (units_of drivers.now.list.items) (here self.old report.old written faults)
            (here self.new report.new written faults) (script.unless_over (script.updates 0 (update.Clock moment))) }
    {
        if run_changes::is_over(&self.ground.run) {
            return;
        }
        let _clock = self.ground.host.update(0, Update::Clock { now: moment });
    }

    /// The timers that are due by this moment fire; then the clock is at it.
    fn tick_to<K: Sink>(
        &mut self,
        drivers: &Drivers,
        report: &mut Report,
        sink: &mut K,
        moment: u32,
    )
        requires ready { IsReady (units_of drivers.now.list.items) (here self.old report.old (K.written sink.old) (K.faults sink.old)) }
        requires moment { moment ≤ last_moment }
        ensures { Leads (units_of drivers.now.list.items) (here self.old report.old (K.written sink.old) (K.faults sink.old))
            (here self.new report.new (K.written sink.new) (K.faults sink.new)) (ticks_to moment) }
    {
        self.fire_all(drivers, report, sink, moment);
        self.set_clock(drivers, report, moment);
    }

    /// `tick N`: the clock goes on by so much. Refused, which is printed, where it would pass 2,000,000,000.
    pub fn tick<K: Sink>(&mut self, drivers: &Drivers, report: &mut Report, sink: &mut K, n: u32)
        requires ready { IsReady (units_of drivers.now.list.items) (here self.old report.old (K.written sink.old) (K.faults sink.old)) }
        ensures { Leads (units_of drivers.now.list.items) (here self.old report.old (K.written sink.old) (K.faults sink.old))
            (here self.new report.new (K.written sink.new) (K.faults sink.new)) (tick n) }
    {
        let moment = u64::from(self.ground.host.clock()) + u64::from(n);
        if moment > LAST_MOMENT {
            let item = Item::TickRefused;
            self.ground.say(report, sink, &item);
            return;
        }
        self.tick_to(drivers, report, sink, moment as u32);
    }
}
