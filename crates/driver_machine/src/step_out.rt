//! `StepOut`: what a step of an activity comes to.
use checked_tree::KernelCall;
use sd_base::FailKind;

/// What a step of an activity comes to.
#[derive(Clone, Copy, PartialEq, Eq, Debug)]
pub enum StepOut {
    /// The activity goes on.
    Went,
    /// It waits for the kernel's answer to this call.
    Wants(KernelCall),
    /// Its first frame returned, with this result. The activity is gone.
    Ended(Option<i64>),
    /// A check of this kind failed on this line, or a call would have made a 65th frame. Nothing changed.
    Failed(u32, FailKind),
    /// The step has no meaning: on this line it would reach memory that was not granted. Nothing changed.
    Wild(u32),
}
