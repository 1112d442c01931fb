//! The report: lines gathered on a page, which is written to a sink where it is full.
ghost use Rattle.std.specs.Prelude.{◌≡◌, ◌≤◌, [], OnOk, OnErr, length};
ghost use Rattle.sd_outside.specs.Counts.{HasCause};
ghost use Rattle.sd_outside.specs.Sink.{more, IsCut};
ghost use Rattle.run_report.specs.Lines.{line_of};

use crate::item::Item;
use crate::lines::put_line;
use crate::page::Page;
use sd_outside::{Sink, WriteFault, write_all};
use std::marker::Model;

/// The bytes of a page before one more line.
const CROWDED: usize = 3_584;

/// Lines that are printed, and not yet written: at most 4,096 bytes of them.
#[derive(Drop)]
pub struct Report {
    page: Page,
}

impl Model for Report {
    ghost use Rattle.std.specs.Prelude.{ℕ, List};

    ghost Value = { List ℕ };

    ghost view = { λ report. report.page };
}

impl Report {
    /// A report that keeps nothing. It takes no memory, now or later.
    pub fn new() -> Report
        ensures { result ≡ [] }
    {
        Report { page: Page::new() }
    }

    /// Writes what is kept where there is no room for a line.
    fn make_room<K: Sink>(&mut self, sink: &mut K) -> Result<(), WriteFault>
        ensures room { OnOk result (length self.new ≤ 3584) }
        ensures ok { OnOk result (more (K.written sink.new) self.new ≡ more (K.written sink.old) self.old) }
        ensures kept { OnErr result (self.new ≡ self.old) }
        ensures err { OnErr result (IsCut (K.written sink.new) (more (K.written sink.old) self.old)) }
        ensures cause { HasCause (K.faults sink.old) (K.faults sink.new) result }
    {
        if self.page.len() <= CROWDED {
            return Ok(());
        }
        let closed = self.close(sink);
        closed
    }

    /// Prints an item. What was written and what is kept together are then the lines so far and the item's line.
    ///
    /// `WriteFault`: a write failed; of the lines so far a front part was written, and what is kept stays.
    pub fn put<K: Sink>(&mut self, item: &Item, sink: &mut K) -> Result<(), WriteFault>
        ensures ok { OnOk result (more (K.written sink.new) self.new ≡ more (more (K.written sink.old) self.old) (line_of item.now)) }
        ensures kept { OnErr result (self.new ≡ self.old) }
        ensures err { OnErr result (IsCut (K.written sink.new) (more (K.written sink.old) self.old)) }
        ensures cause { HasCause (K.faults sink.old) (K.faults sink.new) result }
    {
        match self.make_room(sink) {
            Ok(_unit) => {
                put_line(&mut self.page, item);
                Ok(())
            }
            Err(fault) => Err(fault),
        }
    }

    /// Writes all that is kept. Nothing is kept then.
    ///
    /// `WriteFault`: a write failed; of what is kept a front part was written, and it stays.
    pub fn close<K: Sink>(&mut self, sink: &mut K) -> Result<(), WriteFault>
        ensures ok { OnOk result (K.written sink.new ≡ more (K.written sink.old) self.old) }
        ensures none { OnOk result (self.new ≡ []) }
        ensures kept { OnErr result (self.new ≡ self.old) }
        ensures err { OnErr result (IsCut (K.written sink.new) (more (K.written sink.old) self.old)) }
        ensures cause { HasCause (K.faults sink.old) (K.faults sink.new) result }
    {
        match write_all(sink, self.page.bytes()) {
            Ok(_unit) => {
                self.page.clear();
                Ok(())
            }
            Err(fault) => Err(fault),
        }
    }
}
