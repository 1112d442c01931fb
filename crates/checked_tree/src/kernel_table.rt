//! The table of kernel calls: how each is spelled, what its parameters are, what it gives back, and from where it may be called.
ghost use Rattle.std.specs.Prelude.{◌≡◌, ◌&&◌, bytes_eq};
ghost use Rattle.checked_tree.specs.KernelTable as spec;

use crate::KernelName;
use sd_base::Name;

/// What a parameter of a kernel call is.
#[derive(Clone, Copy, PartialEq, Eq, Debug)]
pub enum ParameterKind {
    /// An `int`.
    Number,
    /// A `char *nullterm`.
    Text,
    /// The name of a function with one parameter `int` and no result.
    Handler,
    /// The type of the elements that `kalloc` makes room for.
    Element,
    /// A pointer that is not nullterm: the block that `kfree` gives back.
    Block,
}

/// What a kernel call gives back.
#[derive(Clone, Copy, PartialEq, Eq, Debug)]
pub enum KernelResult {
    Nothing,
    /// An `int`.
    Number,
    /// A pointer to new elements, or null.
    Block,
}

/// From where a kernel call may be made.
#[derive(Clone, Copy, PartialEq, Eq, Debug)]
pub enum Callers {
    /// From tasks and from handlers.
    All,
    /// From tasks alone: in a handler the call fails.
    Tasks,
}

/// A row of the table.
#[derive(Clone, Copy, Debug)]
pub struct KernelRow {
    pub spelling: &'static [u8],
    pub parameters: &'static [ParameterKind],
    pub result: KernelResult,
    pub callers: Callers,
}

/// The kernel calls, in the order of the table.
pub const KERNEL_CALLS: [KernelName; 25] = [
    KernelName::Printd,
    KernelName::Prints,
    KernelName::Kalloc,
    KernelName::Kfree,
    KernelName::RequestLine,
    KernelName::FreeLine,
    KernelName::RequestPorts,
    KernelName::ReleasePorts,
    KernelName::PortIn,
    KernelName::PortOut,
    KernelName::AddDevice,
    KernelName::DelDevice,
    KernelName::SetParam,
    KernelName::ClearParam,
    KernelName::GetParam,
    KernelName::SetTimer,
    KernelName::DelTimer,
    KernelName::Now,
    KernelName::Lock,
    KernelName::Unlock,
    KernelName::Mask,
    KernelName::Unmask,
    KernelName::Hold,
    KernelName::DropHold,
    KernelName::QueueWork,
];

/// The row of a kernel call.
#[tactic(auto, unfolding(crate::specs::KernelTable::kernel_row))]
pub fn kernel_row(call: KernelName) -> KernelRow
    ensures spelling { result.spelling.now ≡ (spec.kernel_row call).spelling }
    ensures parameters { result.parameters.now ≡ (spec.kernel_row call).parameters }
    ensures result { result.result ≡ (spec.kernel_row call).result }
    ensures callers { result.callers ≡ (spec.kernel_row call).callers }
{
    match call {
        KernelName::Printd => row(
            b"printd",
            &[ParameterKind::Number],
            KernelResult::Nothing,
            Callers::All,
        ),
        KernelName::Prints => row(
            b"prints",
            &[ParameterKind::Text],
            KernelResult::Nothing,
            Callers::All,
        ),
        KernelName::Kalloc => row(
            b"kalloc",
            &[ParameterKind::Element, ParameterKind::Number],
            KernelResult::Block,
            Callers::All,
        ),
        KernelName::Kfree => row(
            b"kfree",
            &[ParameterKind::Block],
            KernelResult::Nothing,
            Callers::All,
        ),
        KernelName::RequestLine => row(
            b"request_line",
            &[ParameterKind::Number, ParameterKind::Handler],
            KernelResult::Number,
            Callers::All,
        ),
        KernelName::FreeLine => row(
            b"free_line",
            &[ParameterKind::Number],
            KernelResult::Number,
            Callers::All,
        ),
        KernelName::RequestPorts => row(
            b"request_ports",
            &[ParameterKind::Number, ParameterKind::Number],
            KernelResult::Number,
            Callers::All,
        ),
        KernelName::ReleasePorts => row(
            b"release_ports",
            &[ParameterKind::Number, ParameterKind::Number],
            KernelResult::Number,
            Callers::All,
        ),
        KernelName::PortIn => row(
            b"port_in",
            &[ParameterKind::Number],
            KernelResult::Number,
            Callers::All,
        ),
        KernelName::PortOut => row(
            b"port_out",
            &[ParameterKind::Number, ParameterKind::Number],
            KernelResult::Nothing,
            Callers::All,
        ),
        KernelName::AddDevice => row(
            b"add_device",
            &[ParameterKind::Number],
            KernelResult::Number,
            Callers::All,
        ),
        KernelName::DelDevice => row(
            b"del_device",
            &[ParameterKind::Number],
            KernelResult::Number,
            Callers::All,
        ),
        KernelName::SetParam => row(
            b"set_param",
            &[ParameterKind::Number, ParameterKind::Number],
            KernelResult::Number,
            Callers::All,
        ),
        KernelName::ClearParam => row(
            b"clear_param",
            &[ParameterKind::Number],
            KernelResult::Number,
            Callers::All,
        ),
        KernelName::GetParam => row(
            b"get_param",
            &[ParameterKind::Number],
            KernelResult::Number,
            Callers::All,
        ),
        KernelName::SetTimer => row(
            b"set_timer",
            &[
                ParameterKind::Number,
                ParameterKind::Number,
                ParameterKind::Handler,
                ParameterKind::Number,
            ],
            KernelResult::Number,
            Callers::All,
        ),
        KernelName::DelTimer => row(
            b"del_timer",
            &[ParameterKind::Number],
            KernelResult::Number,
            Callers::All,
        ),
        KernelName::Now => row(b"now", &[], KernelResult::Number, Callers::All),
        KernelName::Lock => row(
            b"lock",
            &[ParameterKind::Number],
            KernelResult::Nothing,
            Callers::Tasks,
        ),
        KernelName::Unlock => row(
            b"unlock",
            &[ParameterKind::Number],
            KernelResult::Nothing,
            Callers::Tasks,
        ),
        KernelName::Mask => row(b"mask", &[], KernelResult::Nothing, Callers::Tasks),
        KernelName::Unmask => row(b"unmask", &[], KernelResult::Nothing, Callers::Tasks),
        KernelName::Hold => row(
            b"hold",
            &[ParameterKind::Number],
            KernelResult::Number,
            Callers::All,
        ),
        KernelName::DropHold => row(
            b"drop_hold",
            &[ParameterKind::Number],
            KernelResult::Number,
            Callers::All,
        ),
        KernelName::QueueWork => row(
            b"queue_work",
            &[ParameterKind::Handler, ParameterKind::Number],
            KernelResult::Number,
            Callers::All,
        ),
    }
}

fn row(
    spelling: &'static [u8],
    parameters: &'static [ParameterKind],
    answer: KernelResult,
    callers: Callers,
) -> KernelRow
    ensures spelling { result.spelling.now ≡ spelling.now }
    ensures parameters { result.parameters.now ≡ parameters.now }
    ensures result { result.result ≡ answer }
    ensures callers { result.callers ≡ callers }
{
    KernelRow {
        spelling,
        parameters,
        result: answer,
        callers,
    }
}

/// The kernel call that is written by this name. None where there is none: `kalloc` and `kfree` are statements of their own.
#[tactic(auto, unfolding(crate::specs::KernelTable::kernel_named))]
pub fn kernel_named(name: &Name) -> Option<KernelName>
    ensures { result ≡ spec.kernel_named name.now }
{
    kernel_among(&KERNEL_CALLS, name)
}

/// The first of these calls that is written by this name.
fn kernel_among(calls: &[KernelName], name: &Name) -> Option<KernelName>
    ensures { result ≡ spec.kernel_among calls.now name.now }
{
    for call in calls {
        if is_written(*call, name) {
            return Some(*call);
        }
    }
    None
}

/// Whether a call is written by this name.
fn is_written(call: KernelName, name: &Name) -> bool
    ensures { result ≡ (spec.is_by_name call && bytes_eq (spec.kernel_row call).spelling name.now) }
{
    is_by_name(call) && kernel_row(call).spelling == name.bytes()
}

/// Whether a call is written as a name with arguments.
#[tactic(auto, unfolding(crate::specs::KernelTable::is_by_name))]
pub fn is_by_name(call: KernelName) -> bool
    ensures { result ≡ spec.is_by_name call }
{
    kernel_row(call)
        .parameters
        .iter()
        .all(|kind| is_plain(*kind))
}

/// Whether a call by name can have such a parameter.
fn is_plain(kind: ParameterKind) -> bool
    ensures { result ≡ spec.is_plain kind }
{
    match kind {
        ParameterKind::Number => true,
        ParameterKind::Text => true,
        ParameterKind::Handler => true,
        ParameterKind::Element => false,
        ParameterKind::Block => false,
    }
}
