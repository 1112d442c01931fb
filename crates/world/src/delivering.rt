//! `irq L`, and the delivery of waiting lines.
ghost use Rattle.std.specs.Prelude.{◌≡◌, ◌≤◌, false, slice_get, pos};
ghost use Rattle.claim_table.specs.ClaimPart.{holders_of};
ghost use Rattle.driver_host.specs.Hosting.{Reads};
ghost use Rattle.world.specs.Calm.{IsCalm};
ghost use Rattle.world.specs.Ready.{IsReady, NextLine, AreHolders, serves_if, serves_four, serves_by, tells_waiting};
ghost use Rattle.world.specs.Standing.{units_of, here, Leads};
ghost use Rattle.world_core.specs.Delivering.{serves, serves_all, delivers, deliver, irq};
ghost use Rattle.world_core.specs.WorldState.{is_over};

use crate::drivers::Drivers;
use crate::live::Live;
use claim_table::Holder;
use driver_host::{Ground, Host, run_changes};
use run_report::{Item, Report};
use sd_outside::Sink;

/// The holders of a line at one moment, in the order of their requests: there are four at most.
#[derive(Clone, Copy)]
pub struct Holders {
    pub first: Option<Holder>,
    pub second: Option<Holder>,
    pub third: Option<Holder>,
    pub fourth: Option<Holder>,
}

/// The holders of a line.
fn read_holders(host: &Host, line: u8) -> Holders
    ensures { Reads host.now (λ h. AreHolders result (holders_of h (pos line))) }
{
    let number = i32::from(line);
    Holders {
        first: host.holder(number, 0),
        second: host.holder(number, 1),
        third: host.holder(number, 2),
        fourth: host.holder(number, 3),
    }
}

/// The line that is to be served next: the least that waits, where the run goes on and no mask is held.
fn next_line(ground: &Ground) -> Option<u8>
    ensures { NextLine ground.now result }
{
    if run_changes::is_over(&ground.run) {
        return None;
    }
    match ground.host.is_masked() {
        true => None,
        false => run_changes::least_waiting(&ground.run),
    }
}

impl Live {
    /// A holder of a line serves it.
    fn serve<K: Sink>(
        &mut self,
        drivers: &Drivers,
        report: &mut Report,
        sink: &mut K,
        line: u8,
        holder: Holder,
    )
        requires calm { IsCalm (units_of drivers.now.list.items) (here self.old report.old (K.written sink.old) (K.faults sink.old)) }
        requires goes { is_over self.old.ground.run ≡ false }
        ensures { Leads (units_of drivers.now.list.items) (here self.old report.old (K.written sink.old) (K.faults sink.old))
            (here self.new report.new (K.written sink.new) (K.faults sink.new)) (serves line holder) }
    {
        let item = Item::Irq {
            line,
            owner: holder.owner,
        };
        self.ground.say(report, sink, &item);
        self.handle(
            drivers,
            report,
            sink,
            holder.owner,
            holder.handler,
            i32::from(line),
        );
    }

    /// A holder of a line serves it, if there is one and the run goes on.
    fn serve_if<K: Sink>(
        &mut self,
        drivers: &Drivers,
        report: &mut Report,
        sink: &mut K,
        line: u8,
        holder: Option<Holder>,
    )
        requires calm { IsCalm (units_of drivers.now.list.items) (here self.old report.old (K.written sink.old) (K.faults sink.old)) }
        ensures { Leads (units_of drivers.now.list.items) (here self.old report.old (K.written sink.old) (K.faults sink.old))
            (here self.new report.new (K.written sink.new) (K.faults sink.new)) (serves_if line holder) }
    {
        if run_changes::is_over(&self.ground.run) {
            return;
        }
        match holder {
            None => {}
            Some(holder) => self.serve(drivers, report, sink, line, holder),
        }
    }

    /// The holders of a line serve it, in order, up to the bound.
    fn serve_each<K: Sink>(
        &mut self,
        drivers: &Drivers,
        report: &mut Report,
        sink: &mut K,
        line: u8,
        holders: &Holders,
    )
        requires calm { IsCalm (units_of drivers.now.list.items) (here self.old report.old (K.written sink.old) (K.faults sink.old)) }
        ensures { Leads (units_of drivers.now.list.items) (here self.old report.old (K.written sink.old) (K.faults sink.old))
            (here self.new report.new (K.written sink.new) (K.faults sink.new)) (serves_four line holders.now) }
    {
        self.serve_if(drivers, report, sink, line, holders.first);
        self.serve_if(drivers, report, sink, line, holders.second);
        self.serve_if(drivers, report, sink, line, holders.third);
        self.serve_if(drivers, report, sink, line, holders.fourth);
    }

    /// A line is served by its holders, or by nobody where it has none.
    fn serve_line<K: Sink>(
        &mut self,
        drivers: &Drivers,
        report: &mut Report,
        sink: &mut K,
        line: u8,
        holders: &Holders,
    )
        requires calm { IsCalm (units_of drivers.now.list.items) (here self.old report.old (K.written sink.old) (K.faults sink.old)) }
        ensures { Leads (units_of drivers.now.list.items) (here self.old report.old (K.written sink.old) (K.faults sink.old))
            (here self.new report.new (K.written sink.new) (K.faults sink.new)) (serves_by line holders.now) }
    {
        match holders.first {
            None => {
                let item = Item::IrqNobody { line };
                self.ground.say(report, sink, &item);
            }
            Some(_holder) => self.serve_each(drivers, report, sink, line, holders),
        }
    }

    /// A line ceases to wait, and its holders of this moment serve it.
    fn deliver_line<K: Sink>(
        &mut self,
        drivers: &Drivers,
        report: &mut Report,
        sink: &mut K,
        line: u8,
    )
        requires ready { IsReady (units_of drivers.now.list.items) (here self.old report.old (K.written sink.old) (K.faults sink.old)) }
        ensures { Leads (units_of drivers.now.list.items) (here self.old report.old (K.written sink.old) (K.faults sink.old))
            (here self.new report.new (K.written sink.new) (K.faults sink.new)) (delivers line) }
    {
        run_changes::set_waiting(&mut self.ground.run, line, false);
        let holders = read_holders(&self.ground.host, line);
        self.serve_line(drivers, report, sink, line, &holders);
    }

    /// While a line waits and no mask is held, the least line that waits is served.
    pub fn deliver<K: Sink>(&mut self, drivers: &Drivers, report: &mut Report, sink: &mut K)
        requires ready { IsReady (units_of drivers.now.list.items) (here self.old report.old (K.written sink.old) (K.faults sink.old)) }
        ensures { Leads (units_of drivers.now.list.items) (here self.old report.old (K.written sink.old) (K.faults sink.old))
            (here self.new report.new (K.written sink.new) (K.faults sink.new)) deliver }
    {
        for _turn in 0..64usize {
            match next_line(&self.ground) {
                None => return,
                Some(line) => self.deliver_line(drivers, report, sink, line),
            }
        }
    }

    /// Prints that a line still waits, where it does and the run goes on.
    fn say_waiting<K: Sink>(
        &mut self,
        drivers: &Drivers,
        report: &mut Report,
        sink: &mut K,
        line: u8,
    )
        ensures { Leads (units_of drivers.now.list.items) (here self.old report.old (K.written sink.old) (K.faults sink.old))
            (here self.new report.new (K.written sink.new) (K.faults sink.new)) (tells_waiting line) }
    {
        if run_changes::is_over(&self.ground.run) {
            return;
        }
        if !run_changes::is_waiting(&self.ground.run, line) {
            return;
        }
        let item = Item::IrqWaits { line };
        self.ground.say(report, sink, &item);
    }

    /// `irq L`: the line is raised.
    pub fn irq<K: Sink>(&mut self, drivers: &Drivers, report: &mut Report, sink: &mut K, line: u8)
        requires ready { IsReady (units_of drivers.now.list.items) (here self.old report.old (K.written sink.old) (K.faults sink.old)) }
        ensures { Leads (units_of drivers.now.list.items) (here self.old report.old (K.written sink.old) (K.faults sink.old))
            (here self.new report.new (K.written sink.new) (K.faults sink.new)) (irq line) }
    {
        run_changes::set_waiting(&mut self.ground.run, line, true);
        self.deliver(drivers, report, sink);
        self.say_waiting(drivers, report, sink, line);
    }
}
