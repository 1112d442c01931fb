//! The laws of what is printed, each the contract of a function that does nothing.
ghost use Rattle.std.specs.Prelude.{◌≡◌, ◌≤◌, length};
ghost use Rattle.sd_base.specs.History.{History, live_of};
ghost use Rattle.kernel_tables.specs.TableRows.{tables_of};
ghost use Rattle.run_report.specs.Tables.{told_rows};

/// Every row of a history's tables is told, where at most 1,048,576 of its entries are live.
pub fn all_rows_are_told()
    ensures { (h : History) → length (live_of h) ≤ 1048576 → told_rows (tables_of h) ≡ tables_of h }
{}
