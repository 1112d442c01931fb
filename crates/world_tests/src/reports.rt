//! Reports over sinks that take little and fail, and the tables of a kernel.
ghost use Rattle.std.specs.Prelude.{◌≡◌, codes};

use kernel_tables::Kernel;
use run_report::{Functions, Item, Report};
use sd_base::{Layout, Name, Who};
use sd_outside::{MemSink, WriteFault};
use std::alloc::{AllocError, Global};
use std::test::Fail;

/// Lines of some 40 bytes, more than a page of them, through a sink that takes 7 bytes a call and fails in its c-th call.
fn written(alloc: Global, c: u64) -> Result<(bool, Vec<u8>), AllocError> {
    let fail = Vec::from_slice(alloc, &[c])?;
    let mut sink = MemSink::new(alloc, 8000, fail, 7)?;
    let mut report = Report::new();
    let item = Item::Timer {
        driver: 1,
        id: -2147483648,
    };
    let mut went_well = true;
    for _ in 0..200 {
        if went_well {
            went_well = report.put(&item, &mut sink) == Ok(());
        }
    }
    if went_well {
        went_well = report.close(&mut sink) == Ok(());
    }
    let bytes = Vec::from_slice(alloc, sink.bytes())?;
    Ok((went_well, bytes))
}

/// The calls in which a write is to fail and does not leave a front part of the lines.
fn wrong_calls(alloc: Global, whole: &[u8], calls: u64) -> Result<u64, AllocError> {
    let mut wrong = 0;
    for c in 1..calls {
        let (went_well, bytes) = written(alloc, c)?;
        if went_well || bytes.len() >= whole.len() || !whole.starts_with(&bytes) {
            wrong = c;
        }
    }
    Ok(wrong)
}

#[test]
fn a_write_that_fails_leaves_a_front_part(rt: HostRuntime) -> Result<(), Fail> {
    let alloc = rt.alloc();
    let (went_well, whole) = written(alloc, 0)?;
    assert!(rt;
        went_well && whole.len() == 200 * 21 && whole.starts_with(b"timer d1 -2147483648\ntimer d1")
    );
    assert_eq!(rt; wrong_calls(alloc, whole.as_slice(), 600)?, 0);
    Ok(())
}

/// The only function.
struct OneFunction;

impl Functions for OneFunction {
    ghost use Rattle.std.specs.Prelude.{codes};

    ghost names = { λ _ _ _. codes "serve" };

    fn name(&self, _owner: u8, _function: u32) -> Name {
        Name::new(b"serve")
    }
}

const BYTES: Layout = Layout {
    elem: 0,
    size: 4,
    nullterm: false,
};

/// A kernel with something in each table.
fn some_kernel(alloc: Global) -> Result<Kernel, AllocError> {
    let mut kernel = Kernel::new(alloc)?;
    let _base = kernel.grants.grant(2, BYTES, 3, false);
    let _line = kernel.claims.claim_line(2, 5, 1);
    let _kernels = kernel.claims.claim_line(0, 6, 0);
    let _timer = kernel.timers.set_timer(1, 9, 10, 1, -1);
    let _lock = kernel.shares.lock(Who { owner: 2, task: 1 }, 3);
    let _work = kernel.shares.queue_work(1, 1, 4);
    Ok(kernel)
}

#[test]
fn tables_are_printed_by_their_rows(rt: HostRuntime) -> Result<(), Fail> {
    let alloc = rt.alloc();
    let kernel = some_kernel(alloc)?;
    let mut sink = MemSink::new(alloc, 4096, Vec::new(alloc), 4096)?;
    let mut report = Report::new();
    let put = report.tables(&kernel, &OneFunction, &mut sink);
    assert!(rt; put == Ok(()) && sink.bytes().is_empty());
    let closed = report.close(&mut sink);
    let lines = "tables
block d2 16 12 live
line 5 d2 serve
line 6 k
timer d1 9 10 serve -1
lock 3 d2 1
work d1 serve 4
clock 0
";
    assert!(rt; closed == Ok(()) && sink.bytes() == lines.as_bytes());
    Ok(())
}

#[test]
fn a_fault_is_told_once_the_page_is_full(rt: HostRuntime) -> Result<(), Fail> {
    let alloc = rt.alloc();
    let fail = Vec::from_slice(alloc, &[1])?;
    let mut sink = MemSink::new(alloc, 10, fail, 10)?;
    let mut report = Report::new();
    let put = report.put(&Item::TickRefused, &mut sink);
    let closed = report.close(&mut sink);
    assert!(rt; put == Ok(()) && closed == Err(WriteFault::Failed));
    Ok(())
}
