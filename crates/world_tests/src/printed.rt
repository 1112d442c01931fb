//! Each line that is printed, once, against what the formats say.

use kernel_tables::Row;
use run_report::{Excerpt, Item, Obstacle, Operands, Order, Report, UndoneItem};
use sd_base::{BlockState, CheckKind, FailKind, Name, Who};
use sd_outside::MemSink;
use std::alloc::{AllocError, Global};
use std::process::Abort;
use std::test::Fail;

/// A report over a sink with room for all lines of a test.
#[derive(Drop)]
struct Printed {
    report: Report,
    sink: MemSink,
}

/// Nothing was printed yet.
fn nothing(alloc: Global) -> Result<Printed, AllocError> {
    let sink = MemSink::new(alloc, 4096, Vec::new(alloc), 4096)?;
    Ok(Printed {
        report: Report::new(),
        sink,
    })
}

impl Printed {
    /// Prints the line of an item.
    fn put(&mut self, rt: &impl Abort, item: Item) {
        assert!(rt; self.report.put(&item, &mut self.sink).is_ok());
    }

    /// Prints that an order to driver 1 is refused.
    fn declined(&mut self, rt: &impl Abort, order: Order, why: Obstacle) {
        self.put(
            rt,
            Item::Declined {
                driver: 1,
                order,
                why,
            },
        );
    }

    /// Prints what is undone of driver 3.
    fn undone(&mut self, rt: &impl Abort, item: UndoneItem) {
        self.put(rt, Item::Undone { driver: 3, item });
    }

    /// Prints a row of the tables.
    fn row(&mut self, rt: &impl Abort, row: Row) {
        self.put(
            rt,
            Item::Row {
                row,
                handler: Name::new(b"serve_it"),
            },
        );
    }

    /// Prints an instruction of the function `init`.
    fn instruction(
        &mut self,
        rt: &impl Abort,
        place: u32,
        line: u32,
        word: Name,
        operands: Operands,
    ) {
        self.put(
            rt,
            Item::Instruction {
                function: Name::new(b"init"),
                place,
                line,
                word,
                operands,
            },
        );
    }

    /// Prints the line of a text of these bytes.
    fn text(&mut self, rt: &impl Abort, bytes: [u8; 32], len: u8, more: bool) {
        self.put(
            rt,
            Item::Text {
                who: WHO,
                text: Excerpt { bytes, len, more },
            },
        );
    }

    /// Whether these lines were printed, all that is kept being written.
    fn shows(&mut self, lines: &str) -> bool {
        self.report.close(&mut self.sink).is_ok() && self.sink.bytes() == lines.as_bytes()
    }
}

/// Task 3 of driver 2.
const WHO: Who = Who { owner: 2, task: 3 };
/// The kernel.
const KERNEL: Who = Who { owner: 0, task: 0 };

/// Texts of drivers, scenarios, and what becomes of drivers.
fn put_texts(rt: &impl Abort, page: &mut Printed) {
    page.put(rt, Item::Accepted { driver: 4 });
    page.put(
        rt,
        Item::Refused {
            driver: 1,
            line: 4294967295,
            cause: Name::new(b"word"),
        },
    );
    page.put(rt, Item::Unread { line: 65537 });
    page.put(rt, Item::PastLimit { line: 65537 });
    page.put(rt, Item::Loaded { driver: 1 });
    page.put(rt, Item::Restarted { driver: 2 });
    page.put(rt, Item::Unloaded { driver: 3 });
}

/// Orders that are refused.
fn put_declined(rt: &impl Abort, page: &mut Printed) {
    page.declined(rt, Order::Load, Obstacle::NoInit);
    page.declined(rt, Order::Restart, Obstacle::Absent);
    page.declined(rt, Order::Unload, Obstacle::Busy);
    page.declined(rt, Order::Call, Obstacle::NoFunction);
    page.declined(rt, Order::Call, Obstacle::Arguments);
    page.declined(rt, Order::Load, Obstacle::Loaded);
    page.declined(rt, Order::Load, Obstacle::Failed);
}

#[test]
fn texts_and_drivers(rt: HostRuntime) -> Result<(), Fail> {
    let mut page = nothing(rt.alloc())?;
    put_texts(&rt, &mut page);
    put_declined(&rt, &mut page);
    let lines = "accepted 4
refused 1 4294967295 word
scenario 65537
scenario 65537 limit
d1 loaded
d2 restarted
d3 unloaded
d1 load refused: no init
d1 restart refused: absent
d1 unload refused: busy
d1 call refused: no function
d1 call refused: arguments
d1 load refused: loaded
d1 load refused: failed
";
    assert!(rt; page.shows(lines));
    Ok(())
}

/// What activities do.
fn put_activities(rt: &impl Abort, page: &mut Printed) {
    page.put(rt, Item::Idle { task: 8 });
    page.put(rt, Item::TickRefused);
    page.put(
        rt,
        Item::Print {
            who: WHO,
            value: -2147483648,
        },
    );
    page.put(
        rt,
        Item::Out {
            who: WHO,
            port: 65535,
            value: -1,
        },
    );
    page.put(
        rt,
        Item::Answered {
            who: WHO,
            value: 4294967295,
        },
    );
    page.put(rt, Item::Done { who: WHO });
    page.put(rt, Item::Blocked { who: WHO, lock: 63 });
}

/// What events come to.
fn put_events(rt: &impl Abort, page: &mut Printed) {
    page.put(rt, Item::Irq { line: 5, owner: 2 });
    page.put(rt, Item::Irq { line: 5, owner: 0 });
    page.put(rt, Item::IrqNobody { line: 63 });
    page.put(rt, Item::IrqWaits { line: 0 });
    page.put(rt, Item::Timer { driver: 1, id: 255 });
    page.put(rt, Item::Work { driver: 4 });
    page.put(rt, Item::Reply { value: -22 });
}

/// How activities and runs end.
fn put_ends(rt: &impl Abort, page: &mut Printed) {
    page.put(
        rt,
        Item::Failed {
            who: WHO,
            kind: FailKind::Check(CheckKind::Change),
            line: 9,
        },
    );
    page.put(
        rt,
        Item::Failed {
            who: WHO,
            kind: FailKind::Context,
            line: 10,
        },
    );
    page.put(rt, Item::Wild { who: WHO, line: 11 });
    page.put(rt, Item::End { steps: 0 });
    page.put(rt, Item::Bound { steps: 10000000 });
    page.put(
        rt,
        Item::Tested {
            checks: 18446744073709551615,
        },
    );
}

#[test]
fn events_and_activities(rt: HostRuntime) -> Result<(), Fail> {
    let mut page = nothing(rt.alloc())?;
    put_activities(&rt, &mut page);
    put_events(&rt, &mut page);
    put_ends(&rt, &mut page);
    let lines = "t8 idle
tick refused
d2 t3 print -2147483648
d2 t3 out 65535 -1
d2 t3 done 4294967295
d2 t3 done
d2 t3 blocked 63
irq 5 d2
irq 5 k
irq 63 nobody
irq 0 waits
timer d1 255
work d4
kernel -22
d2 t3 failed Change 9
d2 t3 failed Context 10
d2 t3 wild 11
end 0
bound 10000000
checks 18446744073709551615
";
    assert!(rt; page.shows(lines));
    Ok(())
}

/// What is undone of blocks and claims.
fn put_undone_claims(rt: &impl Abort, page: &mut Printed) {
    page.undone(rt, UndoneItem::Block { base: 16 });
    page.undone(rt, UndoneItem::Free { base: 1048560 });
    page.undone(rt, UndoneItem::Line { line: 63 });
    page.undone(rt, UndoneItem::Ports { base: 0, n: 65536 });
    page.undone(rt, UndoneItem::Device { id: 1023 });
    page.undone(rt, UndoneItem::Param { key: 255 });
}

/// What is undone of what activities share.
fn put_undone_shares(rt: &impl Abort, page: &mut Printed) {
    page.undone(rt, UndoneItem::Timer { id: 0 });
    page.undone(rt, UndoneItem::Lock { lock: 1 });
    page.undone(rt, UndoneItem::Mask { task: 8 });
    page.undone(rt, UndoneItem::Hold { domain: 7 });
    page.undone(
        rt,
        UndoneItem::Work {
            handler: Name::new(b"later"),
            arg: -5,
        },
    );
}

#[test]
fn undone_items(rt: HostRuntime) -> Result<(), Fail> {
    let mut page = nothing(rt.alloc())?;
    put_undone_claims(&rt, &mut page);
    put_undone_shares(&rt, &mut page);
    let lines = "d3 undo block 16
d3 undo free 1048560
d3 undo line 63
d3 undo ports 0 65536
d3 undo device 1023
d3 undo param 255
d3 undo timer 0
d3 undo lock 1
d3 undo mask 8
d3 undo hold 7
d3 undo work later -5
";
    assert!(rt; page.shows(lines));
    Ok(())
}

/// Rows of blocks and claims.
fn put_claims(rt: &impl Abort, page: &mut Printed) {
    page.put(rt, Item::Tables);
    page.row(
        rt,
        Row::Block {
            owner: 1,
            base: 16,
            size: 4,
            state: BlockState::Image,
        },
    );
    page.row(
        rt,
        Row::Block {
            owner: 1,
            base: 32,
            size: 5,
            state: BlockState::Live,
        },
    );
    page.row(
        rt,
        Row::Block {
            owner: 4,
            base: 48,
            size: 6,
            state: BlockState::Freed,
        },
    );
    page.row(
        rt,
        Row::Line {
            line: 5,
            owner: 0,
            handler: 0,
        },
    );
    page.row(
        rt,
        Row::Line {
            line: 5,
            owner: 2,
            handler: 7,
        },
    );
    page.row(
        rt,
        Row::Ports {
            base: 768,
            n: 8,
            owner: 1,
        },
    );
    page.row(rt, Row::Device { id: 7, owner: 3 });
    page.row(
        rt,
        Row::Param {
            key: 2,
            value: -7,
            owner: 0,
        },
    );
}

/// Rows of what activities share, and of the clock.
fn put_shares(rt: &impl Abort, page: &mut Printed) {
    page.row(
        rt,
        Row::Timer {
            owner: 1,
            id: 9,
            due: 2000000000,
            handler: 4,
            arg: -1,
        },
    );
    page.row(rt, Row::Lock { lock: 63, who: WHO });
    page.row(
        rt,
        Row::Lock {
            lock: 0,
            who: KERNEL,
        },
    );
    page.row(rt, Row::Mask { who: WHO });
    page.row(rt, Row::Hold { domain: 9, n: 40 });
    page.row(
        rt,
        Row::Work {
            owner: 1,
            handler: 0,
            arg: 2147483647,
        },
    );
    page.row(rt, Row::Clock { now: 2000000000 });
}

#[test]
fn rows_of_tables(rt: HostRuntime) -> Result<(), Fail> {
    let mut page = nothing(rt.alloc())?;
    put_claims(&rt, &mut page);
    put_shares(&rt, &mut page);
    let lines = "tables
block d1 16 4 image
block d1 32 5 live
block d4 48 6 freed
line 5 k
line 5 d2 serve_it
ports 768 8 d1
device 7 d3
param 2 -7 k
timer d1 9 2000000000 serve_it -1
lock 63 d2 3
lock 0 k 0
mask d2 3
hold 9 40
work d1 serve_it 2147483647
clock 2000000000
";
    assert!(rt; page.shows(lines));
    Ok(())
}

/// Checks and instructions.
fn put_listing(rt: &impl Abort, page: &mut Printed) {
    page.put(
        rt,
        Item::Check {
            function: Name::new(b"init"),
            id: 1,
            line: 3,
            kind: CheckKind::Null,
            is_kept: true,
        },
    );
    page.put(
        rt,
        Item::Check {
            function: Name::new(b"init"),
            id: 2,
            line: 3,
            kind: CheckKind::Bound,
            is_kept: false,
        },
    );
    page.instruction(rt, 0, 3, Name::new(b"add"), Operands::Nothing);
    page.instruction(
        rt,
        1,
        4,
        Name::new(b"const"),
        Operands::Number(-170141183460469231731687303715884105728),
    );
    page.instruction(rt, 2, 4, Name::new(b"check_kept"), Operands::Numbers(7, 12));
    page.instruction(
        rt,
        3,
        4,
        Name::new(b"kernel"),
        Operands::Word(Name::new(b"request_line")),
    );
}

/// What is told of generated drivers.
fn put_generated(rt: &impl Abort, page: &mut Printed) {
    page.put(rt, Item::Generated { functions: 2000 });
    page.put(rt, Item::GeneratedText { bytes: 1048576 });
    page.put(
        rt,
        Item::GeneratedChecks {
            checks: 12000,
            kept: 2000,
        },
    );
    page.put(rt, Item::GeneratedSteps { steps: 392002 });
    page.put(rt, Item::GeneratedValue { value: 2001000 });
}

#[test]
fn listings_and_generated_drivers(rt: HostRuntime) -> Result<(), Fail> {
    let mut page = nothing(rt.alloc())?;
    put_listing(&rt, &mut page);
    put_generated(&rt, &mut page);
    let lines = "init 1 3 Null kept
init 2 3 Bound removed
init 0 3 add
init 1 4 const -170141183460469231731687303715884105728
init 2 4 check_kept 7 12
init 3 4 kernel request_line
gen 2000
text 1048576
checks 12000 kept 2000
steps 392002
printed 2001000
";
    assert!(rt; page.shows(lines));
    Ok(())
}

/// Texts of bytes at the edges of what is escaped, and of each length.
fn put_bytes(rt: &impl Abort, page: &mut Printed) {
    let edges = [
        0, 9, 10, 31, 32, 33, 34, 35, 91, 92, 93, 126, 127, 128, 175, 255, 97, 0, 0, 0, 0, 0, 0, 0,
        0, 0, 0, 0, 0, 0, 0, 0,
    ];
    page.text(rt, edges, 17, false);
    page.text(rt, [97; 32], 0, false);
    page.text(rt, [97; 32], 32, false);
    page.text(rt, [98; 32], 32, true);
    page.text(rt, [254; 32], 32, true);
}

#[test]
fn bytes_of_a_text_are_escaped(rt: HostRuntime) -> Result<(), Fail> {
    let mut page = nothing(rt.alloc())?;
    put_bytes(&rt, &mut page);
    let lines = "d2 t3 text \"\\00\\09\\0a\\1f !\\22#[\\5c]~\\7f\\80\\af\\ffa\"
d2 t3 text \"\"
d2 t3 text \"aaaaaaaaaaaaaaaaaaaaaaaaaaaaaaaa\"
d2 t3 text \"bbbbbbbbbbbbbbbbbbbbbbbbbbbbbbbb\"+
d2 t3 text \"\\fe\\fe\\fe\\fe\\fe\\fe\\fe\\fe\\fe\\fe\\fe\\fe\\fe\\fe\\fe\\fe\\fe\\fe\\fe\\fe\\fe\\fe\\fe\\fe\\fe\\fe\\fe\\fe\\fe\\fe\\fe\\fe\"+
";
    assert!(rt; page.shows(lines));
    Ok(())
}
