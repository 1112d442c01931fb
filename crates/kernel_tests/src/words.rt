//! What no clause says of names and printed lines: the digits of the least number, and names that are equal and not.
use sd_base::{Line, Name};
use std::test::Fail;

#[test]
fn numbers_are_written_in_digits(rt: HostRuntime) -> Result<(), Fail> {
    let mut line = Line::new();
    line.put_dec(i128::MIN);
    line.put_text(b" ");
    line.put_dec(0);
    line.put_text(b" ");
    line.put_hex(0xa9);
    assert_eq!(rt;
        line.bytes(),
        b"-170141183460469231731687303715884105728 0 a9".as_slice()
    );
    let name = Name::new(b"init");
    let copy = name;
    assert!(rt; name == copy);
    assert!(rt; name != Name::new(b"ini"));
    assert_eq!(rt; copy.bytes(), b"init".as_slice());
    Ok(())
}
