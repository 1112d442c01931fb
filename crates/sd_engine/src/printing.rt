//! Lines that are written at once.
ghost use Rattle.std.specs.Prelude.{◌≡◌, OnOk, OnErr};
ghost use Rattle.driver_front.specs.Reasons.{spelling_of};
ghost use Rattle.run_report.specs.Lines.{line_of};
ghost use Rattle.run_report.specs.declared.item.Item.TheVariants as item;
ghost use Rattle.sd_outside.specs.Counts.{HasCause};
ghost use Rattle.sd_outside.specs.Sink.{IsCut, more};

use driver_front::Cause;
use run_report::{Item, Report};
use sd_base::Name;
use sd_outside::{Sink, WriteFault};

/// Writes the line of an item at once.
///
/// `WriteFault`: a write failed; a front part of the line was written.
pub fn write_item<K: Sink>(sink: &mut K, item: Item) -> Result<(), WriteFault>
    ensures ok { OnOk result (K.written sink.new ≡ more (K.written sink.old) (line_of item)) }
    ensures err { OnErr result (IsCut (K.written sink.new) (more (K.written sink.old) (line_of item))) }
    ensures cause { HasCause (K.faults sink.old) (K.faults sink.new) result }
{
    let mut report = Report::new();
    report.put(&item, sink)?;
    report.close(sink)
}

/// Writes the line of a driver text that is refused.
pub fn print_refusal<K: Sink>(
    sink: &mut K,
    driver: u8,
    line: u32,
    cause: Cause,
) -> Result<(), WriteFault>
    ensures ok { OnOk result (K.written sink.new ≡ more (K.written sink.old) (line_of (item.Refused driver line (spelling_of cause)))) }
    ensures err { OnErr result (IsCut (K.written sink.new) (more (K.written sink.old)
        (line_of (item.Refused driver line (spelling_of cause))))) }
    ensures cause { HasCause (K.faults sink.old) (K.faults sink.new) result }
{
    let item = refusal(driver, line, cause);
    let written = write_item(sink, item);
    written
}

/// What is printed of a driver text that is refused.
fn refusal(driver: u8, line: u32, cause: Cause) -> Item
    ensures { result ≡ item.Refused driver line (spelling_of cause) }
{
    Item::Refused {
        driver,
        line,
        cause: Name::new(cause.spelling()),
    }
}
