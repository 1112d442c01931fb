//! The rows of the tables, put on a page.
ghost use Rattle.std.specs.Prelude.{◌≡◌, ◌+◌, ◌≤◌, ◌++◌, length};
ghost use Rattle.run_report.specs.Rows.{due_words, call_words, holder_words, row_line};

use crate::page::Page;
use crate::words::{put_owner, state_word};
use kernel_tables::Row;
use sd_base::{BlockState, Name, Who};

/// `block O BASE SIZE W`.
fn put_block(page: &mut Page, owner: u8, base: u32, size: u32, state: BlockState, name: &Name)
    requires { length page.old ≤ 3584 }
    ensures { page.new ≡ page.old ++ row_line (Row.Block owner base size state) name.now }
{
    page.put_text(b"block ");
    put_owner(page, owner);
    page.put_text(b" ");
    page.put_count(u64::from(base));
    page.put_text(b" ");
    page.put_count(u64::from(size));
    page.put_text(b" ");
    page.put_text(state_word(state));
    page.put_text(b"\n");
}

/// `line L O H`, and `line L k` for the kernel.
fn put_line_row(page: &mut Page, line: i32, owner: u8, handler: u32, name: &Name)
    requires { length page.old ≤ 3584 }
    ensures { page.new ≡ page.old ++ row_line (Row.Line line owner handler) name.now }
{
    page.put_text(b"line ");
    page.put_number(i64::from(line));
    page.put_text(b" ");
    put_holder(page, owner, name);
    page.put_text(b"\n");
}

/// `ports B N O`.
fn put_ports(page: &mut Page, base: i32, n: i32, owner: u8, name: &Name)
    requires { length page.old ≤ 3584 }
    ensures { page.new ≡ page.old ++ row_line (Row.Ports base n owner) name.now }
{
    page.put_text(b"ports ");
    page.put_number(i64::from(base));
    page.put_text(b" ");
    page.put_number(i64::from(n));
    page.put_text(b" ");
    put_owner(page, owner);
    page.put_text(b"\n");
}

/// `device I O`.
fn put_device(page: &mut Page, id: i32, owner: u8, name: &Name)
    requires { length page.old ≤ 3584 }
    ensures { page.new ≡ page.old ++ row_line (Row.Device id owner) name.now }
{
    page.put_text(b"device ");
    page.put_number(i64::from(id));
    page.put_text(b" ");
    put_owner(page, owner);
    page.put_text(b"\n");
}

/// `param K V O`.
fn put_param(page: &mut Page, key: i32, value: i32, owner: u8, name: &Name)
    requires { length page.old ≤ 3584 }
    ensures { page.new ≡ page.old ++ row_line (Row.Param key value owner) name.now }
{
    page.put_text(b"param ");
    page.put_number(i64::from(key));
    page.put_text(b" ");
    page.put_number(i64::from(value));
    page.put_text(b" ");
    put_owner(page, owner);
    page.put_text(b"\n");
}

/// `timer O I DUE H A`.
fn put_timer_row(page: &mut Page, owner: u8, id: i32, due: u32, handler: u32, arg: i32, name: &Name)
    requires { length page.old ≤ 3584 }
    ensures { page.new ≡ page.old ++ row_line (Row.Timer owner id due handler arg) name.now }
{
    page.put_text(b"timer ");
    put_owner(page, owner);
    page.put_text(b" ");
    put_due(page, id, due);
    page.put_text(b" ");
    put_call(page, name, arg);
    page.put_text(b"\n");
}

/// `lock L O T`.
fn put_lock(page: &mut Page, lock: i32, who: Who, name: &Name)
    requires { length page.old ≤ 3584 }
    ensures { page.new ≡ page.old ++ row_line (Row.Lock lock who) name.now }
{
    page.put_text(b"lock ");
    page.put_number(i64::from(lock));
    page.put_text(b" ");
    put_owner(page, who.owner);
    page.put_text(b" ");
    page.put_count(u64::from(who.task));
    page.put_text(b"\n");
}

/// `mask O T`.
fn put_mask(page: &mut Page, who: Who, name: &Name)
    requires { length page.old ≤ 3584 }
    ensures { page.new ≡ page.old ++ row_line (Row.Mask who) name.now }
{
    page.put_text(b"mask ");
    put_owner(page, who.owner);
    page.put_text(b" ");
    page.put_count(u64::from(who.task));
    page.put_text(b"\n");
}

/// `hold D N`.
fn put_hold(page: &mut Page, domain: i32, n: u32, name: &Name)
    requires { length page.old ≤ 3584 }
    ensures { page.new ≡ page.old ++ row_line (Row.Hold domain n) name.now }
{
    page.put_text(b"hold ");
    page.put_number(i64::from(domain));
    page.put_text(b" ");
    page.put_count(u64::from(n));
    page.put_text(b"\n");
}

/// `work O H A`.
fn put_work_row(page: &mut Page, owner: u8, handler: u32, arg: i32, name: &Name)
    requires { length page.old ≤ 3584 }
    ensures { page.new ≡ page.old ++ row_line (Row.Work owner handler arg) name.now }
{
    page.put_text(b"work ");
    put_owner(page, owner);
    page.put_text(b" ");
    put_call(page, name, arg);
    page.put_text(b"\n");
}

/// `clock N`.
fn put_clock(page: &mut Page, now: u32, name: &Name)
    requires { length page.old ≤ 3584 }
    ensures { page.new ≡ page.old ++ row_line (Row.Clock now) name.now }
{
    page.put_text(b"clock ");
    page.put_count(u64::from(now));
    page.put_text(b"\n");
}

/// A timer, and when it fires.
fn put_due(page: &mut Page, id: i32, due: u32)
    requires { length page.old + 81 ≤ 4096 }
    ensures text { page.new ≡ page.old ++ due_words id due }
    ensures len { length page.new ≤ length page.old + 81 }
{
    page.put_number(i64::from(id));
    page.put_text(b" ");
    page.put_count(u64::from(due));
}

/// The function that is called, and its argument.
pub fn put_call(page: &mut Page, name: &Name, arg: i32)
    requires { length page.old + 104 ≤ 4096 }
    ensures text { page.new ≡ page.old ++ call_words name.now arg }
    ensures len { length page.new ≤ length page.old + 104 }
{
    page.put_name(name);
    page.put_text(b" ");
    page.put_number(i64::from(arg));
}

/// `k`, or a driver with the name of its function.
fn put_holder(page: &mut Page, owner: u8, name: &Name)
    requires { length page.old + 105 ≤ 4096 }
    ensures text { page.new ≡ page.old ++ holder_words owner name.now }
    ensures len { length page.new ≤ length page.old + 105 }
{
    if owner == 0 {
        page.put_text(b"k");
    } else {
        put_owner(page, owner);
        page.put_text(b" ");
        page.put_name(name);
    }
}

/// The line of a row, on a page with room for one; the name is that of the function that the row names by its number.
pub fn put_row(page: &mut Page, row: &Row, name: &Name)
    requires { length page.old ≤ 3584 }
    ensures { page.new ≡ page.old ++ row_line row.now name.now }
{
    match *row {
        Row::Block {
            owner,
            base,
            size,
            state,
        } => put_block(page, owner, base, size, state, name),
        Row::Line {
            line,
            owner,
            handler,
        } => put_line_row(page, line, owner, handler, name),
        Row::Ports { base, n, owner } => put_ports(page, base, n, owner, name),
        Row::Device { id, owner } => put_device(page, id, owner, name),
        Row::Param { key, value, owner } => put_param(page, key, value, owner, name),
        Row::Timer {
            owner,
            id,
            due,
            handler,
            arg,
        } => put_timer_row(page, owner, id, due, handler, arg, name),
        Row::Lock { lock, who } => put_lock(page, lock, who, name),
        Row::Mask { who } => put_mask(page, who, name),
        Row::Hold { domain, n } => put_hold(page, domain, n, name),
        Row::Work {
            owner,
            handler,
            arg,
        } => put_work_row(page, owner, handler, arg, name),
        Row::Clock { now } => put_clock(page, now, name),
    }
}
