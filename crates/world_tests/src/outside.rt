//! What no clause says: that each call can succeed, and what a file and standard output do.
ghost use Rattle.std.specs.Prelude.{◌≤◌, IsTrue, IfOk, map};
ghost use Rattle.sd_outside.specs.Texts.{text_of, names_differ};

use sd_outside::{
    CalmShelf, CalmSink, FileShelf, MemShelf, MemSink, OutSink, Shelf, TextFault, WriteFault,
    read_text, write_all,
};
use std::alloc::{AllocError, Global};
use std::fs;
use std::test::Fail;

/// A driver and a scenario.
fn two_texts(alloc: Global) -> Result<Vec<(String, Vec<u8>)>, AllocError>
    ensures differ { IfOk result (λ texts. IsTrue (names_differ (map text_of texts.items))) }
{
    let mut texts = Vec::new(alloc);
    let driver = Vec::from_slice(alloc, b"int init(void)")?;
    texts.push((String::from_str(alloc, "d1.c")?, driver))?;
    let scenario = Vec::from_slice(alloc, b"load d1 1")?;
    texts.push((String::from_str(alloc, "s")?, scenario))?;
    Ok(texts)
}

/// Does the shelf have these bytes left under that name?
fn reads<S: Shelf>(alloc: Global, shelf: &mut S, name: &str, want: &str) -> bool {
    match read_text(alloc, shelf, name) {
        Ok(text) => text.as_slice() == want.as_bytes(),
        Err(_) => false,
    }
}

/// Does the shelf fail to read that name?
fn fails<S: Shelf>(alloc: Global, shelf: &mut S, name: &str) -> bool {
    read_text(alloc, shelf, name) == Err(TextFault::ReadFault)
}

/// Whether both texts are read whole, each once, where a read has at most so many bytes.
fn are_read_whole(alloc: Global, most: usize) -> Result<bool, AllocError>
    requires { 1 ≤ most }
{
    let mut shelf = MemShelf::new(two_texts(alloc)?, Vec::new(alloc), most);
    Ok(
        reads(alloc, &mut shelf, "d1.c", "int init(void)")
            && reads(alloc, &mut shelf, "s", "load d1 1")
            && reads(alloc, &mut shelf, "s", "")
            && fails(alloc, &mut shelf, "no"),
    )
}

#[test]
fn a_text_is_read_whole_however_short_the_reads_are(rt: HostRuntime) -> Result<(), Fail> {
    assert!(rt; are_read_whole(rt.alloc(), 1)?);
    assert!(rt; are_read_whole(rt.alloc(), 3)?);
    assert!(rt; are_read_whole(rt.alloc(), 100)?);
    Ok(())
}

#[test]
fn a_read_that_fails_takes_nothing(rt: HostRuntime) -> Result<(), Fail> {
    let alloc = rt.alloc();
    let second = Vec::from_slice(alloc, &[2])?;
    let mut shelf = MemShelf::new(two_texts(alloc)?, second, 3);
    let kept = fails(alloc, &mut shelf, "s") && reads(alloc, &mut shelf, "s", "d d1 1");
    assert!(rt; kept);
    Ok(())
}

#[test]
fn a_write_that_fails_leaves_a_prefix(rt: HostRuntime) -> Result<(), Fail> {
    let alloc = rt.alloc();
    let second = Vec::from_slice(alloc, &[2])?;
    let mut sink = MemSink::new(alloc, 12, second, 5)?;
    let failed = write_all(&mut sink, b"d1 loaded\n") == Err(WriteFault::Failed);
    assert!(rt; failed && sink.bytes() == b"d1 lo".as_slice());
    let past_room = write_all(&mut sink, b"aded\nend 0\n") == Err(WriteFault::Failed);
    assert!(rt; past_room && sink.bytes() == b"d1 loaded\nen".as_slice());
    Ok(())
}

#[test]
fn what_never_fails_has_no_bytes_of_an_absent_name(rt: HostRuntime) -> Result<(), Fail> {
    let alloc = rt.alloc();
    let mut shelf = CalmShelf::new(two_texts(alloc)?);
    let calm = reads(alloc, &mut shelf, "s", "load d1 1")
        && reads(alloc, &mut shelf, "no", "")
        && write_all(&mut CalmSink::new(), b"end 0\n") == Ok(());
    assert!(rt; calm);
    Ok(())
}

#[test]
fn a_file_is_read_on_while_it_is_the_open_one(rt: HostRuntime) -> Result<(), Fail> {
    let alloc = rt.alloc();
    fs::write(&rt, "s", "load d1 1")?;
    fs::write(&rt, "d1.c", "int init(void)")?;
    let mut shelf = FileShelf::new(&rt);
    let read = reads(alloc, &mut shelf, "s", "load d1 1")
        && reads(alloc, &mut shelf, "s", "")
        && reads(alloc, &mut shelf, "d1.c", "int init(void)")
        && reads(alloc, &mut shelf, "s", "load d1 1");
    assert!(rt; read);
    let refused = fails(alloc, &mut shelf, "no such file") && fails(alloc, &mut shelf, ".");
    assert!(rt; refused);
    Ok(())
}

#[test]
fn standard_output_takes_a_line(rt: HostRuntime) -> Result<(), Fail> {
    let written = write_all(&mut OutSink::new(&rt), b"end 0\n");
    assert!(rt; written == Ok(()));
    Ok(())
}
