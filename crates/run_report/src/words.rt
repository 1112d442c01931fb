//! The words of lines, put on a page.
ghost use Rattle.std.specs.Prelude.{◌≡◌, ◌+◌, ◌-◌, ◌*◌, ◌≤◌, ◌++◌, length, take, codes};
ghost use Rattle.std.specs.List.{flat_map};
ghost use Rattle.run_report.specs.Words.{driver, owner as owner_of, task as task_of, activity, order_word as word_of_order, obstacle_word as word_of_obstacle, state_word as word_of_state, check_word as word_of_check, failure_word as word_of_failure, is_plain, escaped, text_said};
ghost use Rattle.sd_base.specs.Text.{hexadecimal_digit};

use crate::item::{Excerpt, Obstacle, Order};
use crate::page::Page;
use sd_base::{BlockState, CheckKind, FailKind, Who};

/// `dK`.
pub fn put_driver(page: &mut Page, k: u8)
    requires { length page.old + 41 ≤ 4096 }
    ensures text { page.new ≡ page.old ++ driver k }
    ensures len { length page.new ≤ length page.old + 41 }
{
    page.put_text(b"d");
    page.put_count(u64::from(k));
}

/// `dK`, and `k` for the kernel.
pub fn put_owner(page: &mut Page, owner: u8)
    requires { length page.old + 41 ≤ 4096 }
    ensures text { page.new ≡ page.old ++ owner_of owner }
    ensures len { length page.new ≤ length page.old + 41 }
{
    if owner == 0 {
        page.put_text(b"k");
    } else {
        put_driver(page, owner);
    }
}

/// `tT`.
pub fn put_task(page: &mut Page, task: u8)
    requires { length page.old + 41 ≤ 4096 }
    ensures text { page.new ≡ page.old ++ task_of task }
    ensures len { length page.new ≤ length page.old + 41 }
{
    page.put_text(b"t");
    page.put_count(u64::from(task));
}

/// `dK tT`.
pub fn put_activity(page: &mut Page, who: Who)
    requires { length page.old + 83 ≤ 4096 }
    ensures text { page.new ≡ page.old ++ activity who }
    ensures len { length page.new ≤ length page.old + 83 }
{
    put_owner(page, who.owner);
    page.put_text(b" ");
    put_task(page, who.task);
}

/// What is ordered.
pub fn order_word(order: Order) -> &'static [u8]
    ensures word { result.now ≡ word_of_order order }
    ensures short { length result.now ≤ 16 }
{
    match order {
        Order::Load => b"load",
        Order::Restart => b"restart",
        Order::Unload => b"unload",
        Order::Call => b"call",
    }
}

/// Why it is not done.
pub fn obstacle_word(why: Obstacle) -> &'static [u8]
    ensures word { result.now ≡ word_of_obstacle why }
    ensures short { length result.now ≤ 16 }
{
    match why {
        Obstacle::Absent => b"absent",
        Obstacle::Loaded => b"loaded",
        Obstacle::Failed => b"failed",
        Obstacle::NoInit => b"no init",
        Obstacle::Busy => b"busy",
        Obstacle::NoFunction => b"no function",
        Obstacle::Arguments => b"arguments",
    }
}

/// What a block is used for.
pub fn state_word(state: BlockState) -> &'static [u8]
    ensures word { result.now ≡ word_of_state state }
    ensures short { length result.now ≤ 16 }
{
    match state {
        BlockState::Image => b"image",
        BlockState::Live => b"live",
        BlockState::Freed => b"freed",
    }
}

/// The kind of a check.
pub fn check_word(kind: CheckKind) -> &'static [u8]
    ensures word { result.now ≡ word_of_check kind }
    ensures short { length result.now ≤ 16 }
{
    match kind {
        CheckKind::Null => b"Null",
        CheckKind::Bound => b"Bound",
        CheckKind::Align => b"Align",
        CheckKind::Term => b"Term",
        CheckKind::Tag => b"Tag",
        CheckKind::Change => b"Change",
        CheckKind::Div => b"Div",
    }
}

/// How a step fails.
pub fn failure_word(kind: FailKind) -> &'static [u8]
    ensures word { result.now ≡ word_of_failure kind }
    ensures short { length result.now ≤ 16 }
{
    match kind {
        FailKind::Check(kind) => check_word(kind),
        FailKind::Stack => b"Stack",
        FailKind::Free => b"Free",
        FailKind::Port => b"Port",
        FailKind::Lock => b"Lock",
        FailKind::Relock => b"Relock",
        FailKind::Unheld => b"Unheld",
        FailKind::Held => b"Held",
        FailKind::Masked => b"Masked",
        FailKind::Context => b"Context",
    }
}

/// Whether a byte stands for itself in a printed text.
fn is_plain_byte(byte: u8) -> bool
    ensures { result ≡ is_plain byte }
{
    byte >= 0x20 && byte <= 0x7e && byte != b'"' && byte != b'\\'
}

/// The lower-case hexadecimal digit of a number below 16.
fn digit(n: u8) -> u8
    requires { n ≤ 15 }
    ensures { result ≡ hexadecimal_digit n }
{
    if n < 10 { b'0' + n } else { b'a' + (n - 10) }
}

/// A byte of a text.
fn put_escaped(page: &mut Page, byte: u8)
    requires { length page.old + 3 ≤ 4096 }
    ensures text { page.new ≡ page.old ++ escaped byte }
    ensures len { length page.new ≤ length page.old + 3 }
{
    if is_plain_byte(byte) {
        page.put_text(&[byte]);
    } else {
        page.put_text(&[b'\\', digit(byte / 16), digit(byte % 16)]);
    }
}

/// The bytes of a text.
fn put_bytes(page: &mut Page, bytes: &[u8])
    requires few { length bytes.now ≤ 32 }
    requires room { length page.old + 96 ≤ 4096 }
    ensures text { page.new ≡ page.old ++ flat_map escaped bytes.now }
    ensures len { length page.new ≤ length page.old + 96 }
{
    for byte in bytes {
        put_escaped(page, *byte);
    }
}

/// The bytes of an excerpt between quotes, and a mark where there are more.
pub fn put_excerpt(page: &mut Page, text: &Excerpt)
    requires room { length page.old + 99 ≤ 4096 }
    ensures text { page.new ≡ page.old ++ text_said text.now }
    ensures len { length page.new ≤ length page.old + 99 }
{
    page.put_text(b"\"");
    put_bytes(page, told_bytes(text));
    page.put_text(b"\"");
    page.put_text(if text.more { b"+" } else { b"" });
}

/// The bytes that an excerpt tells.
fn told_bytes(text: &Excerpt) -> &[u8]
    ensures bytes { result.now ≡ take text.now.len text.now.bytes }
    ensures few { length result.now ≤ 32 }
{
    let len = usize::from(text.len).min(text.bytes.len());
    &text.bytes[..len]
}
