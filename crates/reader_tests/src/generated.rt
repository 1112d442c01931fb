//! The texts of the generator, against a text written out.
use gen_driver::gen_text;
use std::test::Fail;

const ONE_FUNCTION: &str = "int a[64];
int f1(int x) { int i; i = 0; while (i < 64) { a[i] = a[i] + x; i = i + 1; } return a[1]; }
int init(void) { int r;
r = f1(1);
printd(r); return 0; }
";

#[test]
fn one_function_is_the_text_written_out(rt: HostRuntime) -> Result<(), Fail> {
    let (driver, scenario) = gen_text(rt.alloc(), 1)?;
    assert_eq!(rt; driver.as_slice(), ONE_FUNCTION.as_bytes());
    assert_eq!(rt; scenario.as_slice(), b"load d1 1\nfinish 1\n".as_slice());
    Ok(())
}
