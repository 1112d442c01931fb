//! One claim: who holds the thing of this number, and what goes with it.
ghost use Rattle.std.specs.Prelude.{◌≡◌};
ghost use Rattle.claim_table.specs.ClaimRows.{range_of};

use sd_base::limits::PORTS;

/// Who holds the thing of this number, and what goes with it: the handler of a line, the length of a range of ports, the value
/// of a parameter, and nothing with a device.
#[derive(Clone, Copy, PartialEq, Eq, Debug)]
pub struct Claim<D> {
    /// The kernel is 0, the drivers are 1 to 4.
    pub owner: u8,
    /// The line, the first port, the device or the parameter.
    pub number: u16,
    /// What goes with it.
    pub detail: D,
}

/// A range of ports.
#[derive(Clone, Copy, PartialEq, Eq, Debug)]
pub(crate) struct PortRange {
    /// The first port.
    pub base: u16,
    /// How many, at least 1.
    pub n: u32,
}

/// The `n` ports from `base`, or None where not all of them are ports, or there is none.
pub(crate) fn port_range(base: i32, n: i32) -> Option<PortRange>
    ensures { result ≡ range_of base n }
{
    if base < 0 || n < 1 || i64::from(base) + i64::from(n) > i64::from(PORTS) {
        return None;
    }
    Some(PortRange {
        base: base as u16,
        n: n as u32,
    })
}
