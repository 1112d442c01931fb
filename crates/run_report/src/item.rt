//! What a printed line tells.

use kernel_tables::Row;
use sd_base::{CheckKind, FailKind, Name, Who};

/// What a line tells. Drivers are 1 to 4, owners are the drivers and the kernel, which is 0, tasks are 1 to 8, and task 0 stands for
/// handlers. Lines of texts are counted from 1.
#[derive(Clone, Copy, PartialEq, Eq, Debug)]
pub enum Item {
    /// `accepted K`: the driver's text is accepted.
    Accepted {
        driver: u8,
    },
    /// `refused K L W`: the driver's text is refused at this line, for the cause of this word.
    Refused {
        driver: u8,
        line: u32,
        cause: Name,
    },
    /// `scenario L`: the line of the scenario has no reading.
    Unread {
        line: u32,
    },
    /// `scenario L limit`: the line of the scenario passes a limit.
    PastLimit {
        line: u32,
    },
    /// `dK loaded`.
    Loaded {
        driver: u8,
    },
    /// `dK restarted`.
    Restarted {
        driver: u8,
    },
    /// `dK unloaded`.
    Unloaded {
        driver: u8,
    },
    /// `dK load refused: W`, and so of the other orders.
    Declined {
        driver: u8,
        order: Order,
        why: Obstacle,
    },
    /// `tT idle`: the task that is to run has no activity.
    Idle {
        task: u8,
    },
    /// `tick refused`: the clock would go too far.
    TickRefused,
    /// `dK tT print V`.
    Print {
        who: Who,
        value: i32,
    },
    /// `dK tT out P V`.
    Out {
        who: Who,
        port: u16,
        value: i32,
    },
    /// `dK tT text "S"`.
    Text {
        who: Who,
        text: Excerpt,
    },
    /// `dK tT done V`: an activity ended with this value.
    Answered {
        who: Who,
        value: i64,
    },
    /// `dK tT done`: an activity ended without a value.
    Done {
        who: Who,
    },
    /// `dK tT blocked L`: the activity waits for a lock.
    Blocked {
        who: Who,
        lock: i32,
    },
    /// `irq L O`: the line is served by this holder.
    Irq {
        line: u8,
        owner: u8,
    },
    /// `irq L nobody`: nobody holds the line that is served.
    IrqNobody {
        line: u8,
    },
    /// `irq L waits`: the line is not served yet.
    IrqWaits {
        line: u8,
    },
    /// `timer dK I`: the timer fires.
    Timer {
        driver: u8,
        id: i32,
    },
    /// `work dK`: an item of the work queue runs.
    Work {
        driver: u8,
    },
    /// `kernel V`: the reply to an update of the kernel.
    Reply {
        value: i32,
    },
    /// `dK tT failed KIND LINE`: a step fails, whose statement stands on this line.
    Failed {
        who: Who,
        kind: FailKind,
        line: u32,
    },
    /// `dK tT wild LINE`: a step has no meaning, whose statement stands on this line, and the run ends.
    Wild {
        who: Who,
        line: u32,
    },
    /// `dK undo ITEM`: what the driver held is taken back.
    Undone {
        driver: u8,
        item: UndoneItem,
    },
    /// `tables`: the rows of the tables come.
    Tables,
    /// A row of the tables, with the name of the function that it names by a number; a row that names none does not tell the name.
    Row {
        row: Row,
        handler: Name,
    },
    /// `end N`: the run has ended after so many steps.
    End {
        steps: u32,
    },
    /// `bound N`: a step was needed when so many were taken.
    Bound {
        steps: u32,
    },
    /// `checks N`: so many checks were tested.
    Tested {
        checks: u64,
    },
    /// `FUNCTION ID LINE KIND kept`, or `removed`: a check of a function, and whether it is tested.
    Check {
        function: Name,
        id: u32,
        line: u32,
        kind: CheckKind,
        is_kept: bool,
    },
    /// `FUNCTION PC LINE INSTR`: an instruction of a function's code.
    Instruction {
        function: Name,
        place: u32,
        line: u32,
        word: Name,
        operands: Operands,
    },
    /// `gen N`: a driver with so many functions was generated.
    Generated {
        functions: u32,
    },
    /// `text B`: its text has so many bytes.
    GeneratedText {
        bytes: u64,
    },
    /// `checks C kept D`: it has so many checks, of which so many are tested.
    GeneratedChecks {
        checks: u32,
        kept: u32,
    },
    /// `steps S`: its run took so many steps.
    GeneratedSteps {
        steps: u32,
    },
    /// `printed V`: its run printed this value last.
    GeneratedValue {
        value: i32,
    },
}

/// What a scenario orders to be done with a driver.
#[derive(Clone, Copy, PartialEq, Eq, Debug)]
pub enum Order {
    Load,
    Restart,
    Unload,
    Call,
}

/// Why an order is not carried out.
#[derive(Clone, Copy, PartialEq, Eq, Debug)]
pub enum Obstacle {
    /// The driver is not loaded.
    Absent,
    /// It is loaded already.
    Loaded,
    /// It has failed.
    Failed,
    /// It has no function `init` without parameters and with the result `int`.
    NoInit,
    /// The task has an activity, or the driver has one.
    Busy,
    /// It has no function of that name.
    NoFunction,
    /// The values do not fit the function's parameters.
    Arguments,
}

/// The bytes of a printed text, at most the first 32, and whether there are more.
#[derive(Clone, Copy, PartialEq, Eq, Debug)]
pub struct Excerpt {
    /// The bytes, and anything behind them.
    pub bytes: [u8; 32],
    /// How many of them are told.
    pub len: u8,
    /// Whether the text goes on behind them.
    pub more: bool,
}

/// What is taken back of what a driver held.
#[derive(Clone, Copy, PartialEq, Eq, Debug)]
pub enum UndoneItem {
    /// `block B`: the block that begins at this address.
    Block { base: u32 },
    /// `free B`: that this block was given back.
    Free { base: u32 },
    /// `line L`.
    Line { line: i32 },
    /// `ports B N`.
    Ports { base: i32, n: i32 },
    /// `device I`.
    Device { id: i32 },
    /// `param K`.
    Param { key: i32 },
    /// `timer I`.
    Timer { id: i32 },
    /// `lock L`.
    Lock { lock: i32 },
    /// `mask T`: that this task holds interrupts off.
    Mask { task: u8 },
    /// `hold D`.
    Hold { domain: i32 },
    /// `work H V`: the function that was to run, and its argument.
    Work { handler: Name, arg: i32 },
}

/// What stands behind the word of an instruction.
#[derive(Clone, Copy, PartialEq, Eq, Debug)]
pub enum Operands {
    Nothing,
    /// A number.
    Number(i128),
    /// Two numbers.
    Numbers(i128, i128),
    /// A word.
    Word(Name),
}
