//! The line of each item, put on a page.
ghost use Rattle.std.specs.Prelude.{◌≡◌, ◌+◌, ◌≤◌, ◌++◌, length, codes};
ghost use Rattle.std.specs.Fmt.{decimal, signed_decimal};
ghost use Rattle.run_report.specs.Words.{driver, activity};
ghost use Rattle.run_report.specs.Lines.{counted, kept_word as word_of_kept, operand_words, line_of};

use crate::item::{Excerpt, Item, Obstacle, Operands, Order};
use crate::page::Page;
use crate::rows::put_row;
use crate::undone::put_undone;
use crate::words::{
    check_word, failure_word, obstacle_word, order_word, put_activity, put_driver, put_excerpt,
    put_owner, put_task,
};
use sd_base::{CheckKind, FailKind, Name, Who};

/// A word and a count.
fn put_counted(page: &mut Page, word: &[u8], n: u64)
    requires word { length word.now ≤ 16 }
    requires room { length page.old ≤ 3584 }
    ensures { page.new ≡ page.old ++ counted word.now n }
{
    page.put_text(word);
    page.put_count(n);
    page.put_text(b"\n");
}

/// A word and a number.
fn put_signed(page: &mut Page, word: &[u8], v: i64)
    requires word { length word.now ≤ 16 }
    requires room { length page.old ≤ 3584 }
    ensures { page.new ≡ page.old ++ (word.now ++ signed_decimal v ++ codes "\n") }
{
    page.put_text(word);
    page.put_number(v);
    page.put_text(b"\n");
}

/// A word, a count, and what stands behind it, with its line feed.
fn put_count_and(page: &mut Page, word: &[u8], n: u64, behind: &[u8])
    requires word { length word.now ≤ 16 }
    requires behind { length behind.now ≤ 16 }
    requires room { length page.old ≤ 3584 }
    ensures { page.new ≡ page.old ++ (word.now ++ decimal n ++ behind.now) }
{
    page.put_text(word);
    page.put_count(n);
    page.put_text(behind);
}

/// A driver, and what stands behind it, with its line feed.
fn put_driver_and(page: &mut Page, k: u8, behind: &[u8])
    requires behind { length behind.now ≤ 16 }
    requires room { length page.old ≤ 3584 }
    ensures { page.new ≡ page.old ++ (driver k ++ behind.now) }
{
    put_driver(page, k);
    page.put_text(behind);
}

/// An activity, what stands behind it, and a number.
fn put_said(page: &mut Page, who: Who, word: &[u8], v: i64)
    requires word { length word.now ≤ 16 }
    requires room { length page.old ≤ 3584 }
    ensures { page.new ≡ page.old ++ (activity who ++ word.now ++ signed_decimal v ++ codes "\n") }
{
    put_activity(page, who);
    page.put_text(word);
    page.put_number(v);
    page.put_text(b"\n");
}

/// `refused K L W`.
fn put_refused(page: &mut Page, k: u8, line: u32, cause: &Name)
    requires { length page.old ≤ 3584 }
    ensures { page.new ≡ page.old ++ line_of (Item.Refused k line cause.now) }
{
    page.put_text(b"refused ");
    page.put_count(u64::from(k));
    page.put_text(b" ");
    page.put_count(u64::from(line));
    page.put_text(b" ");
    page.put_name(cause);
    page.put_text(b"\n");
}

/// `dK load refused: W`, and so of the other orders.
fn put_declined(page: &mut Page, k: u8, order: Order, why: Obstacle)
    requires { length page.old ≤ 3584 }
    ensures { page.new ≡ page.old ++ line_of (Item.Declined k order why) }
{
    put_driver(page, k);
    page.put_text(b" ");
    page.put_text(order_word(order));
    page.put_text(b" refused: ");
    page.put_text(obstacle_word(why));
    page.put_text(b"\n");
}

/// `tT idle`.
fn put_idle(page: &mut Page, task: u8)
    requires { length page.old ≤ 3584 }
    ensures { page.new ≡ page.old ++ line_of (Item.Idle task) }
{
    put_task(page, task);
    page.put_text(b" idle\n");
}

/// `irq L O`.
fn put_irq(page: &mut Page, line: u8, owner: u8)
    requires { length page.old ≤ 3584 }
    ensures { page.new ≡ page.old ++ line_of (Item.Irq line owner) }
{
    page.put_text(b"irq ");
    page.put_count(u64::from(line));
    page.put_text(b" ");
    put_owner(page, owner);
    page.put_text(b"\n");
}

/// `timer dK I`.
fn put_timer(page: &mut Page, k: u8, id: i32)
    requires { length page.old ≤ 3584 }
    ensures { page.new ≡ page.old ++ line_of (Item.Timer k id) }
{
    page.put_text(b"timer ");
    put_driver(page, k);
    page.put_text(b" ");
    page.put_number(i64::from(id));
    page.put_text(b"\n");
}

/// `work dK`.
fn put_work(page: &mut Page, k: u8)
    requires { length page.old ≤ 3584 }
    ensures { page.new ≡ page.old ++ line_of (Item.Work k) }
{
    page.put_text(b"work ");
    put_driver(page, k);
    page.put_text(b"\n");
}

/// `dK tT out P V`.
fn put_out(page: &mut Page, who: Who, port: u16, value: i32)
    requires { length page.old ≤ 3584 }
    ensures { page.new ≡ page.old ++ line_of (Item.Out who port value) }
{
    put_activity(page, who);
    page.put_text(b" out ");
    page.put_count(u64::from(port));
    page.put_text(b" ");
    page.put_number(i64::from(value));
    page.put_text(b"\n");
}

/// `dK tT text "S"`.
fn put_text_said(page: &mut Page, who: Who, text: &Excerpt)
    requires { length page.old ≤ 3584 }
    ensures { page.new ≡ page.old ++ line_of (Item.Text who text.now) }
{
    put_activity(page, who);
    page.put_text(b" text ");
    put_excerpt(page, text);
    page.put_text(b"\n");
}

/// `dK tT done`.
fn put_done(page: &mut Page, who: Who)
    requires { length page.old ≤ 3584 }
    ensures { page.new ≡ page.old ++ line_of (Item.Done who) }
{
    put_activity(page, who);
    page.put_text(b" done\n");
}

/// `dK tT failed KIND LINE`.
fn put_failed(page: &mut Page, who: Who, kind: FailKind, line: u32)
    requires { length page.old ≤ 3584 }
    ensures { page.new ≡ page.old ++ line_of (Item.Failed who kind line) }
{
    put_activity(page, who);
    page.put_text(b" failed ");
    page.put_text(failure_word(kind));
    page.put_text(b" ");
    page.put_count(u64::from(line));
    page.put_text(b"\n");
}

/// `dK tT wild LINE`.
fn put_wild(page: &mut Page, who: Who, line: u32)
    requires { length page.old ≤ 3584 }
    ensures { page.new ≡ page.old ++ line_of (Item.Wild who line) }
{
    put_activity(page, who);
    page.put_text(b" wild ");
    page.put_count(u64::from(line));
    page.put_text(b"\n");
}

/// Whether a check is tested.
fn kept_word(is_kept: bool) -> &'static [u8]
    ensures word { result.now ≡ word_of_kept is_kept }
    ensures short { length result.now ≤ 16 }
{
    if is_kept { b"kept" } else { b"removed" }
}

/// `FUNCTION ID LINE KIND kept`, or `removed`.
fn put_check(page: &mut Page, function: &Name, id: u32, line: u32, kind: CheckKind, is_kept: bool)
    requires { length page.old ≤ 3584 }
    ensures { page.new ≡ page.old ++ line_of (Item.Check function.now id line kind is_kept) }
{
    page.put_name(function);
    page.put_text(b" ");
    page.put_count(u64::from(id));
    page.put_text(b" ");
    page.put_count(u64::from(line));
    page.put_text(b" ");
    page.put_text(check_word(kind));
    page.put_text(b" ");
    page.put_text(kept_word(is_kept));
    page.put_text(b"\n");
}

/// What stands behind the word of an instruction.
fn put_operands(page: &mut Page, operands: &Operands)
    requires { length page.old + 82 ≤ 4096 }
    ensures text { page.new ≡ page.old ++ operand_words operands.now }
    ensures len { length page.new ≤ length page.old + 82 }
{
    match operands {
        Operands::Nothing => {}
        Operands::Number(n) => {
            page.put_text(b" ");
            page.put_wide(*n);
        }
        Operands::Numbers(m, n) => {
            page.put_text(b" ");
            page.put_wide(*m);
            page.put_text(b" ");
            page.put_wide(*n);
        }
        Operands::Word(word) => {
            page.put_text(b" ");
            page.put_name(word);
        }
    }
}

/// `FUNCTION PC LINE INSTR`.
fn put_instruction(
    page: &mut Page,
    function: &Name,
    place: u32,
    line: u32,
    word: &Name,
    operands: &Operands,
)
    requires { length page.old ≤ 3584 }
    ensures { page.new ≡ page.old ++ line_of (Item.Instruction function.now place line word.now operands.now) }
{
    page.put_name(function);
    page.put_text(b" ");
    page.put_count(u64::from(place));
    page.put_text(b" ");
    page.put_count(u64::from(line));
    page.put_text(b" ");
    page.put_name(word);
    put_operands(page, operands);
    page.put_text(b"\n");
}

/// `checks C kept D`.
fn put_generated_checks(page: &mut Page, checks: u32, kept: u32)
    requires { length page.old ≤ 3584 }
    ensures { page.new ≡ page.old ++ line_of (Item.GeneratedChecks checks kept) }
{
    page.put_text(b"checks ");
    page.put_count(u64::from(checks));
    page.put_text(b" kept ");
    page.put_count(u64::from(kept));
    page.put_text(b"\n");
}

/// The line of an item, on a page with room for one.
pub fn put_line(page: &mut Page, item: &Item)
    requires { length page.old ≤ 3584 }
    ensures { page.new ≡ page.old ++ line_of item.now }
{
    match item {
        Item::Accepted { driver } => put_counted(page, b"accepted ", u64::from(*driver)),
        Item::Refused {
            driver,
            line,
            cause,
        } => put_refused(page, *driver, *line, cause),
        Item::Unread { line } => put_counted(page, b"scenario ", u64::from(*line)),
        Item::PastLimit { line } => put_count_and(
            page,
            b"scenario ",
            u64::from(*line),
            b" limit\n",
        ),
        Item::Loaded { driver } => put_driver_and(page, *driver, b" loaded\n"),
        Item::Restarted { driver } => put_driver_and(page, *driver, b" restarted\n"),
        Item::Unloaded { driver } => put_driver_and(page, *driver, b" unloaded\n"),
        Item::Declined { driver, order, why } => put_declined(page, *driver, *order, *why),
        Item::Idle { task } => put_idle(page, *task),
        Item::TickRefused => page.put_text(b"tick refused\n"),
        Item::Print { who, value } => put_said(page, *who, b" print ", i64::from(*value)),
        Item::Out { who, port, value } => put_out(page, *who, *port, *value),
        Item::Text { who, text } => put_text_said(page, *who, text),
        Item::Answered { who, value } => put_said(page, *who, b" done ", *value),
        Item::Done { who } => put_done(page, *who),
        Item::Blocked { who, lock } => put_said(page, *who, b" blocked ", i64::from(*lock)),
        Item::Irq { line, owner } => put_irq(page, *line, *owner),
        Item::IrqNobody { line } => put_count_and(page, b"irq ", u64::from(*line), b" nobody\n"),
        Item::IrqWaits { line } => put_count_and(page, b"irq ", u64::from(*line), b" waits\n"),
        Item::Timer { driver, id } => put_timer(page, *driver, *id),
        Item::Work { driver } => put_work(page, *driver),
        Item::Reply { value } => put_signed(page, b"kernel ", i64::from(*value)),
        Item::Failed { who, kind, line } => put_failed(page, *who, *kind, *line),
        Item::Wild { who, line } => put_wild(page, *who, *line),
        Item::Undone { driver, item } => put_undone(page, *driver, item),
        Item::Tables => page.put_text(b"tables\n"),
        Item::Row { row, handler } => put_row(page, row, handler),
        Item::End { steps } => put_counted(page, b"end ", u64::from(*steps)),
        Item::Bound { steps } => put_counted(page, b"bound ", u64::from(*steps)),
        Item::Tested { checks } => put_counted(page, b"checks ", *checks),
        Item::Check {
            function,
            id,
            line,
            kind,
            is_kept,
        } => put_check(page, function, *id, *line, *kind, *is_kept),
        Item::Instruction {
            function,
            place,
            line,
            word,
            operands,
        } => put_instruction(page, function, *place, *line, word, operands),
        Item::Generated { functions } => put_counted(page, b"gen ", u64::from(*functions)),
        Item::GeneratedText { bytes } => put_counted(page, b"text ", *bytes),
        Item::GeneratedChecks { checks, kept } => put_generated_checks(page, *checks, *kept),
        Item::GeneratedSteps { steps } => put_counted(page, b"steps ", u64::from(*steps)),
        Item::GeneratedValue { value } => put_signed(page, b"printed ", i64::from(*value)),
    }
}
