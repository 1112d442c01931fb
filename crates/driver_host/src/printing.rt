//! Printing that goes on in silence once a write has failed: what it prints is then a front part of the lines.
//!
//! `is_silent` tells that a write has failed. Nothing is written from then on, so that every part of an event has one way out.
ghost use Rattle.std.specs.Prelude.{◌≡◌, [], ◌∷◌, map};
ghost use Rattle.kernel_tables.specs.KernelRows.{kernel_rows};
ghost use Rattle.run_report.specs.Tables.{table_items};
ghost use Rattle.world_core.specs.Failing.{undone_item};
ghost use Rattle.driver_host.specs.Printing.{out, Prints};

use kernel_tables::Kernel;
use run_report::{Functions, Item, Report, UndoneItem};
use sd_outside::Sink;
use update_tracker::Undo;

/// Prints an item.
pub fn say<K: Sink>(is_silent: &mut bool, report: &mut Report, sink: &mut K, item: &Item)
    ensures { Prints (out is_silent.old report.old (K.written sink.old) (K.faults sink.old))
        (out is_silent.new report.new (K.written sink.new) (K.faults sink.new)) (item.now ∷ []) }
{
    if *is_silent {
        return;
    }
    match report.put(item, sink) {
        Ok(_unit) => {}
        Err(_fault) => *is_silent = true,
    }
}

/// Prints the line `tables` and the rows of the kernel's tables.
pub fn say_tables<K: Sink, F: Functions>(
    is_silent: &mut bool,
    report: &mut Report,
    sink: &mut K,
    kernel: &Kernel,
    functions: &F,
)
    ensures { Prints (out is_silent.old report.old (K.written sink.old) (K.faults sink.old))
        (out is_silent.new report.new (K.written sink.new) (K.faults sink.new))
        (table_items (F.names functions.now) (kernel_rows kernel.entry.now)) }
{
    if *is_silent {
        return;
    }
    match report.tables(kernel, functions, sink) {
        Ok(_unit) => {}
        Err(_fault) => *is_silent = true,
    }
}

/// What is printed of something that is taken back.
fn undone_of<F: Functions>(functions: &F, driver: u8, undo: &Undo) -> UndoneItem
    ensures { result ≡ undone_item (F.names functions.now) driver undo.now }
{
    match *undo {
        Undo::Block(base) => UndoneItem::Block { base },
        Undo::Free(base) => UndoneItem::Free { base },
        Undo::Line(line) => UndoneItem::Line { line },
        Undo::Ports(base, n) => UndoneItem::Ports { base, n },
        Undo::Device(id) => UndoneItem::Device { id },
        Undo::Param(key) => UndoneItem::Param { key },
        Undo::Timer(id) => UndoneItem::Timer { id },
        Undo::Lock(lock) => UndoneItem::Lock { lock },
        Undo::Mask(task) => UndoneItem::Mask { task },
        Undo::Hold(domain) => UndoneItem::Hold { domain },
        Undo::Work(handler, arg) => UndoneItem::Work {
            handler: functions.name(driver, handler),
            arg,
        },
    }
}

/// Prints what was taken back of a driver, from the newest.
pub fn say_undone<K: Sink, F: Functions>(
    is_silent: &mut bool,
    report: &mut Report,
    sink: &mut K,
    driver: u8,
    undone: &[Undo],
    functions: &F,
)
    ensures { Prints (out is_silent.old report.old (K.written sink.old) (K.faults sink.old))
        (out is_silent.new report.new (K.written sink.new) (K.faults sink.new))
        (map (λ u. Item.Undone driver (undone_item (F.names functions.now) driver u)) undone.now) }
{
    for undo in undone {
        let item = Item::Undone {
            driver,
            item: undone_of(functions, driver, undo),
        };
        say(is_silent, report, sink, &item);
    }
}
