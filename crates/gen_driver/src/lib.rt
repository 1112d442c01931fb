//! The generator: the text of a driver of any size up to `MOST_FUNCTIONS`, and the scenario that runs it.
#![tactic(auto)]

ghost use Rattle.std.specs.Prelude.{◌≡◌, ◌++◌, ◌≤◌, IfOk, OnOk, string_bytes};
ghost use Rattle.gen_driver.specs.Generator.{function_line, call_line, driver_text, scenario_text};

use std::alloc::{AllocError, Global};
use std::fmt::Write;

/// The most functions that a generated driver has.
pub const MOST_FUNCTIONS: u32 = 2000;

/// The elements of the generated driver's array.
const ARRAY_LENGTH: u32 = 64;

/// The text of a driver with `n` functions, and the text of the scenario that loads it and runs its `init`.
///
/// `n` is from 1 to `MOST_FUNCTIONS`. The only refusal is want of memory.
pub fn gen_text(alloc: Global, n: u32) -> Result<(Vec<u8>, Vec<u8>), AllocError>
    requires least { 1 ≤ n }
    requires most { n ≤ MOST_FUNCTIONS }
    ensures driver { IfOk result (λ texts. texts.0.items ≡ driver_text n) }
    ensures scenario { IfOk result (λ texts. texts.1.items ≡ scenario_text) }
{
    let mut driver = String::from_str(alloc, "int a[64];\n")?;
    for k in 1..n + 1 {
        push_function(&mut driver, k)?;
    }
    driver.push_str("int init(void) { int r;\n")?;
    for k in 1..n + 1 {
        push_call(&mut driver, k)?;
    }
    driver.push_str("printd(r); return 0; }\n")?;
    let scenario = String::from_str(alloc, "load d1 1\nfinish 1\n")?;
    Ok((driver.into_bytes(), scenario.into_bytes()))
}

/// Appends the line that defines the function of number `k`.
fn push_function(driver: &mut String, k: u32) -> Result<(), AllocError>
    ensures { OnOk result (string_bytes driver.new ≡ string_bytes driver.old ++ function_line k) }
{
    let answered = k % ARRAY_LENGTH;
    write!(
        driver,
        "int f{k}(int x) {{ int i; i = 0; while (i < 64) {{ a[i] = a[i] + x; i = i + 1; }} return a[{answered}]; }}\n"
    )?;
    Ok(())
}

/// Appends the line that calls the function of number `k` with `k`.
fn push_call(driver: &mut String, k: u32) -> Result<(), AllocError>
    ensures { OnOk result (string_bytes driver.new ≡ string_bytes driver.old ++ call_line k) }
{
    write!(driver, "r = f{k}({k});\n")?;
    Ok(())
}
