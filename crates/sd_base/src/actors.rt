//! Who acts on the kernel, and what a pointer carries.

/// An activity: a task or a handler of one owner.
#[derive(Clone, Copy, PartialEq, Eq, Debug)]
pub struct Who {
    /// The kernel is 0, the drivers are 1 to 4.
    pub owner: u8,
    /// Tasks are 1 to 8; 0 stands for handlers, and for the kernel itself.
    pub task: u8,
}

/// A pointer with its bounds. All three are addresses of a driver's arena, and all are 0 where it is null.
#[derive(Clone, Copy, PartialEq, Eq, Debug)]
pub struct Fat {
    /// Where it points.
    pub value: u32,
    /// The first address that it may reach.
    pub lo: u32,
    /// The first address past those that it may reach.
    pub hi: u32,
}
