//! Updates with the answers of the written rules, and the rows that the tables show, one after the other on one set of tables.
use crate::tables::{ANSWERS, SHOWN};
use crate::tracking::{first_wrong, new_tracked};
use std::test::Fail;

#[test]
fn each_call_has_its_answer(rt: HostRuntime) -> Result<(), Fail> {
    let mut tracked = new_tracked(rt.alloc(), 1)?;
    assert_eq!(rt; first_wrong(rt.alloc(), &mut tracked, ANSWERS)?, "");
    Ok(())
}

#[test]
fn rows_after_updates_of_each_kind(rt: HostRuntime) -> Result<(), Fail> {
    let mut tracked = new_tracked(rt.alloc(), 1)?;
    assert_eq!(rt; first_wrong(rt.alloc(), &mut tracked, SHOWN)?, "");
    Ok(())
}
