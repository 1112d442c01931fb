//! The memory of a driver: values lowest byte first, accesses at both ends of granted ranges. The expected answers are worked by hand.
ghost use Rattle.std.specs.Prelude.{◌≡◌, ◌+◌, ◌<◌, ◌≤◌, length};

use byte_memory::{Arena, Tested};
use checked_tree::{Scalar, Stop};
use driver_machine::{clear, is_clear, load, store};
use sd_base::Memory;
use std::alloc::Global;
use std::test::Fail;

/// A memory of 64 bytes, of which 16 to 23, 24 to 27 and 60 to 63 are granted.
fn granted(alloc: Global) -> Result<Tested, Memory> {
    let mut memory = Tested::new(alloc, 64)?;
    memory.grant(16, 8);
    memory.grant(24, 4);
    memory.grant(60, 4);
    Ok(memory)
}

/// An access.
#[derive(Clone, Copy)]
enum Access {
    /// A number is stored.
    Put(Scalar, i64),
    /// A number is loaded.
    Get(Scalar),
    /// So many bytes become 0.
    Zero(u32),
    /// Whether so many bytes are 0.
    IsZero(u32),
}

use Access::{Get, IsZero, Put, Zero};
use Scalar::{I8, I16, I32, U8, U16, U32};

/// An address, an access there and its answer.
type Row = (i64, Access, Result<i64, Stop>);

const WILD: Result<i64, Stop> = Err(Stop::Wild);

/// One after the other, on a memory of zeros.
const ACCESSES: [Row; 44] = [
    (16, Put(I32, 0xaabb_ccdd), Ok(0)),
    (16, Get(U8), Ok(0xdd)),
    (17, Get(U8), Ok(0xcc)),
    (18, Get(U8), Ok(0xbb)),
    (19, Get(U8), Ok(0xaa)),
    (16, Get(I8), Ok(-35)),
    (16, Get(U16), Ok(0xccdd)),
    (17, Get(U16), Ok(0xbbcc)),
    (18, Get(I16), Ok(-21829)),
    (16, Get(U32), Ok(0xaabb_ccdd)),
    (16, Get(I32), Ok(-1430532899)),
    (17, Get(U32), Ok(0x00aa_bbcc)),
    (18, Put(U16, 0x1122_3344), Ok(0)),
    (16, Get(U32), Ok(0x3344_ccdd)),
    (27, Put(U8, 300), Ok(0)),
    (24, Get(U32), Ok(0x2c00_0000)),
    (60, Put(I8, -1), Ok(0)),
    (63, Put(U8, 7), Ok(0)),
    (60, Get(U32), Ok(0x0700_00ff)),
    (20, Get(I32), Ok(0)),
    (21, Get(I32), WILD),
    (23, Get(U16), WILD),
    (25, Get(I32), WILD),
    (28, Get(U8), WILD),
    (15, Get(U8), WILD),
    (15, Get(U16), WILD),
    (0, Get(U8), WILD),
    (-1, Get(U8), WILD),
    (64, Get(U8), WILD),
    (61, Get(U32), WILD),
    (4294967295, Get(U16), WILD),
    (4294967312, Get(U8), WILD),
    (21, Put(I32, -1), WILD),
    (28, Put(U8, -1), WILD),
    (20, IsZero(4), Ok(1)),
    (19, IsZero(4), Ok(0)),
    (16, IsZero(0), Ok(1)),
    (20, IsZero(5), WILD),
    (4294967312, IsZero(1), WILD),
    (17, Zero(2), Ok(0)),
    (16, Get(U32), Ok(0x3300_00dd)),
    (16, Zero(9), WILD),
    (16, Get(U32), Ok(0x3300_00dd)),
    (24, Get(U32), Ok(0x2c00_0000)),
];

/// The answer of an access; 0 where it has none.
fn answer(memory: &mut Tested, at: i64, access: Access) -> Result<i64, Stop> {
    match access {
        Access::Put(scalar, number) => {
            store(memory, scalar, at, number)?;
            Ok(0)
        }
        Access::Get(scalar) => load(memory, scalar, at),
        Access::Zero(size) => {
            clear(memory, at, size)?;
            Ok(0)
        }
        Access::IsZero(size) => {
            let is_zero = is_clear(memory, i128::from(at), size)?;
            Ok(i64::from(is_zero))
        }
    }
}

/// The address of the first access that is answered otherwise.
fn wrong_access(memory: &mut Tested, rows: &[Row]) -> Option<i64> {
    for row in rows {
        let (at, access, wanted) = *row;
        if answer(memory, at, access) != wanted {
            return Some(at);
        }
    }
    None
}

#[test]
fn memory_is_read_and_written_lowest_byte_first_within_one_range(
    rt: HostRuntime,
) -> Result<(), Fail> {
    let mut memory = granted(rt.alloc())?;
    assert_eq!(rt; wrong_access(&mut memory, &ACCESSES), None);
    Ok(())
}

#[test]
fn an_arena_is_filled_and_seen(rt: HostRuntime) -> Result<(), Fail> {
    let mut arena = Arena::new(rt.alloc(), 6)?;
    arena.copy_in(1, &[1, 2, 3, 4, 5]);
    arena.fill(2, 2);
    assert_eq!(rt; arena.view(0, 6), [0, 1, 0, 0, 4, 5].as_slice());
    Ok(())
}

#[test]
fn there_is_room_for_4096_ranges(rt: HostRuntime) -> Result<(), Fail> {
    let mut memory = Tested::new(rt.alloc(), 4096)?;
    for base in 0..4096 {
        memory.grant(base, 1);
    }
    assert!(rt; memory.inside(4095, 1));
    assert!(rt; !memory.inside(4094, 2));
    Ok(())
}
