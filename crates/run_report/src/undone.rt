//! What is undone, put on a page.
ghost use Rattle.std.specs.Prelude.{◌≡◌, ◌+◌, ◌≤◌, ◌++◌, length};
ghost use Rattle.std.specs.Fmt.{decimal, signed_decimal};
ghost use Rattle.run_report.specs.Rows.{undone_words};
ghost use Rattle.run_report.specs.Lines.{line_of};

use crate::item::{Item, UndoneItem};
use crate::page::Page;
use crate::rows::put_call;
use crate::words::put_driver;
use sd_base::Name;

/// A word and a count.
fn put_counted_word(page: &mut Page, word: &[u8], n: u64)
    requires word { length word.now ≤ 16 }
    requires room { length page.old + 168 ≤ 4096 }
    ensures text { page.new ≡ page.old ++ (word.now ++ decimal n) }
    ensures len { length page.new ≤ length page.old + 168 }
{
    page.put_text(word);
    page.put_count(n);
}

/// A word and a number.
fn put_signed_word(page: &mut Page, word: &[u8], v: i32)
    requires word { length word.now ≤ 16 }
    requires room { length page.old + 168 ≤ 4096 }
    ensures text { page.new ≡ page.old ++ (word.now ++ signed_decimal v) }
    ensures len { length page.new ≤ length page.old + 168 }
{
    page.put_text(word);
    page.put_number(i64::from(v));
}

/// `ports B N`.
fn put_ports(page: &mut Page, base: i32, n: i32)
    requires { length page.old + 168 ≤ 4096 }
    ensures text { page.new ≡ page.old ++ undone_words (UndoneItem.Ports base n) }
    ensures len { length page.new ≤ length page.old + 168 }
{
    page.put_text(b"ports ");
    page.put_number(i64::from(base));
    page.put_text(b" ");
    page.put_number(i64::from(n));
}

/// `work H V`.
fn put_work(page: &mut Page, handler: &Name, arg: i32)
    requires { length page.old + 168 ≤ 4096 }
    ensures text { page.new ≡ page.old ++ undone_words (UndoneItem.Work handler.now arg) }
    ensures len { length page.new ≤ length page.old + 168 }
{
    page.put_text(b"work ");
    put_call(page, handler, arg);
}

/// An item that is undone.
fn put_words(page: &mut Page, item: &UndoneItem)
    requires { length page.old + 168 ≤ 4096 }
    ensures text { page.new ≡ page.old ++ undone_words item.now }
    ensures len { length page.new ≤ length page.old + 168 }
{
    match item {
        UndoneItem::Block { base } => put_counted_word(page, b"block ", u64::from(*base)),
        UndoneItem::Free { base } => put_counted_word(page, b"free ", u64::from(*base)),
        UndoneItem::Line { line } => put_signed_word(page, b"line ", *line),
        UndoneItem::Ports { base, n } => put_ports(page, *base, *n),
        UndoneItem::Device { id } => put_signed_word(page, b"device ", *id),
        UndoneItem::Param { key } => put_signed_word(page, b"param ", *key),
        UndoneItem::Timer { id } => put_signed_word(page, b"timer ", *id),
        UndoneItem::Lock { lock } => put_signed_word(page, b"lock ", *lock),
        UndoneItem::Mask { task } => put_counted_word(page, b"mask ", u64::from(*task)),
        UndoneItem::Hold { domain } => put_signed_word(page, b"hold ", *domain),
        UndoneItem::Work { handler, arg } => put_work(page, handler, *arg),
    }
}

/// `dK undo ITEM`.
pub fn put_undone(page: &mut Page, k: u8, item: &UndoneItem)
    requires { length page.old ≤ 3584 }
    ensures { page.new ≡ page.old ++ line_of (Item.Undone k item.now) }
{
    put_driver(page, k);
    page.put_text(b" undo ");
    put_words(page, item);
    page.put_text(b"\n");
}
