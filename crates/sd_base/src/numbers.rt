//! Numbers that a driver hands over, as one of the things of which there are so many.
ghost use Rattle.std.specs.Prelude.{◌≡◌};
ghost use Rattle.sd_base.specs.Numbers.{number_of};

/// The number as one of 0, 1, .., `bound` - 1, or None where it is none of these.
pub fn number_below(number: i32, bound: u16) -> Option<u16>
    ensures { result ≡ number_of bound number }
{
    if number < 0 || number >= i32::from(bound) {
        return None;
    }
    Some(number as u16)
}
