//! `KernelCall`: what a driver asks of the kernel, and the answer to it.
use sd_base::Fat;

/// The kernel calls.
#[derive(Clone, Copy, PartialEq, Eq, Debug)]
pub enum KernelName {
    Printd,
    Prints,
    Kalloc,
    Kfree,
    RequestLine,
    FreeLine,
    RequestPorts,
    ReleasePorts,
    PortIn,
    PortOut,
    AddDevice,
    DelDevice,
    SetParam,
    ClearParam,
    GetParam,
    SetTimer,
    DelTimer,
    Now,
    Lock,
    Unlock,
    Mask,
    Unmask,
    Hold,
    DropHold,
    QueueWork,
}

/// A kernel call with its arguments. A part that the call does not have is 0.
#[derive(Clone, Copy, PartialEq, Eq, Debug)]
pub struct KernelCall {
    pub name: KernelName,
    /// The integer arguments in order, the handler left out.
    pub args: [i64; 4],
    /// The number of the handler among the driver's functions.
    pub function: u32,
    /// The number of `kalloc`'s type among the driver's element types.
    pub elem: u32,
    /// The bytes of one element of that type.
    pub size: u32,
    /// The pointer argument.
    pub pointer: Fat,
}

/// What the kernel answers: a number, which a call without a result drops, or the block of a `kalloc`.
#[derive(Clone, Copy, PartialEq, Eq, Debug)]
pub enum Answer {
    Number(i32),
    Pointer(Fat),
}
