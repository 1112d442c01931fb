//! `Stop`: why an evaluation or a step gives no value.
use sd_base::FailKind;

/// How an evaluation or a step ends without a value.
#[derive(Clone, Copy, PartialEq, Eq, Debug)]
pub enum Stop {
    /// It fails, at the line of its statement. A failing step changes nothing.
    Failed(u32, FailKind),
    /// It has no meaning: an access that no granted block contains, a pointer or a bound that is no address, a division by 0 that no
    /// check stopped.
    Wild,
}
