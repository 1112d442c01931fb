//! The rows of the kernel's tables, printed one after another.
ghost use Rattle.std.specs.Prelude.{◌≡◌, ◌∷◌, map, OnOk, OnErr};
ghost use Rattle.sd_base.specs.History.{History};
ghost use Rattle.sd_outside.specs.Counts.{HasCause};
ghost use Rattle.sd_outside.specs.Sink.{more, IsCut};
ghost use Rattle.kernel_tables.specs.KernelRows.{kernel_rows};
ghost use Rattle.kernel_tables.specs.Standing.{StandsFor};
ghost use Rattle.kernel_tables.specs.TableRows.{tables_of};
ghost use Rattle.run_report.specs.Lines.{print};
ghost use Rattle.run_report.specs.Tables.{row_name as name_in_row, row_item as item_of_row, told_rows, table_items};

use crate::functions::Functions;
use crate::item::Item;
use crate::report::Report;
use kernel_tables::{Kernel, Row};
use sd_base::Name;
use sd_outside::{Sink, WriteFault};

/// The name of the function that a row names by its number; a row that names none has the empty name.
fn row_name<F: Functions>(functions: &F, row: &Row) -> Name
    ensures { result ≡ name_in_row (F.names functions.now) row.now }
{
    match *row {
        Row::Line { owner, handler, .. } => functions.name(owner, handler),
        Row::Timer { owner, handler, .. } => functions.name(owner, handler),
        Row::Work { owner, handler, .. } => functions.name(owner, handler),
        _ => Name::new(b""),
    }
}

/// A row as it is printed.
fn row_item<F: Functions>(functions: &F, row: &Row) -> Item
    ensures { result ≡ item_of_row (F.names functions.now) row.now }
{
    Item::Row {
        row: *row,
        handler: row_name(functions, row),
    }
}

/// Prints the rows of a kernel's tables.
fn put_rows<K: Sink, F: Functions>(
    report: &mut Report,
    kernel: &Kernel,
    functions: &F,
    sink: &mut K,
) -> Result<(), WriteFault>
    ensures ok { OnOk result (more (K.written sink.new) report.new ≡ more (more (K.written sink.old) report.old) (print (map (item_of_row (F.names functions.now)) (told_rows (kernel_rows kernel.entry.now))))) }
    ensures err { OnErr result (IsCut (K.written sink.new) (more (more (K.written sink.old) report.old) (print (map (item_of_row (F.names functions.now)) (told_rows (kernel_rows kernel.entry.now)))))) }
    ensures cause { HasCause (K.faults sink.old) (K.faults sink.new) result }
{
    for k in 0..u32::MAX {
        let Some(row) = kernel.row(k) else {
            return Ok(());
        };
        let item = row_item(functions, &row);
        report.put(&item, sink)?;
    }
    Ok(())
}

impl Report {
    /// Prints the line `tables` and the rows of a kernel's tables, with the names of the functions that they name by numbers.
    ///
    /// `WriteFault`: a write failed; of these lines and those before a front part was written.
    pub fn tables<K: Sink, F: Functions>(
        &mut self,
        kernel: &Kernel,
        functions: &F,
        sink: &mut K,
    ) -> Result<(), WriteFault>
        ensures ok { OnOk result (more (K.written sink.new) self.new ≡ more (more (K.written sink.old) self.old) (print (table_items (F.names functions.now) (kernel_rows kernel.entry.now)))) }
        ensures err { OnErr result (IsCut (K.written sink.new) (more (more (K.written sink.old) self.old) (print (table_items (F.names functions.now) (kernel_rows kernel.entry.now))))) }
        ensures cause { HasCause (K.faults sink.old) (K.faults sink.new) result }
        ensures reads { (h : History) → StandsFor kernel.entry.now h → kernel_rows kernel.entry.now ≡ tables_of h }
    {
        match self.put(&Item::Tables, sink) {
            Ok(_unit) => {
                let put = put_rows(self, kernel, functions, sink);
                put
            }
            Err(fault) => Err(fault),
        }
    }
}
