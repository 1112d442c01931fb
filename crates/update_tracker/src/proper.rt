//! Which updates an owner can ask for.
ghost use Rattle.std.specs.Prelude.{◌≡◌};
ghost use Rattle.sd_base.specs.Allowed.{is_of_kernel, is_of_driver, is_proper};

use sd_base::Update;
use sd_base::limits::TASKS;

/// Whether it is one of the kernel's own: a line, a parameter, a hold, a lock for task 0, or the clock.
fn is_of_kernel(update: Update) -> bool
    ensures { result ≡ is_of_kernel update }
{
    match update {
        Update::Line { .. } => true,
        Update::FreeLine { .. } => true,
        Update::Param { .. } => true,
        Update::ClearParam { .. } => true,
        Update::Hold { .. } => true,
        Update::DropHold { .. } => true,
        Update::Lock { task, .. } => task == 0,
        Update::Unlock { task, .. } => task == 0,
        Update::Clock { .. } => true,
        _ => false,
    }
}

/// Whether it is one of a driver's: any but the clock, for a task of 0 to 8, and for blocks of elements that have a byte.
fn is_of_driver(update: Update) -> bool
    ensures { result ≡ is_of_driver update }
{
    match update {
        Update::Grant { layout, .. } => layout.size > 0,
        Update::Lock { task, .. } => task <= TASKS,
        Update::Unlock { task, .. } => task <= TASKS,
        Update::Mask { task } => task <= TASKS,
        Update::Unmask { task } => task <= TASKS,
        Update::Clock { .. } => false,
        _ => true,
    }
}

/// Whether an owner can ask for an update: the kernel, which is 0, for its own, and the drivers, 1 to 4, for theirs.
///
/// It is the condition of `Tracked::update`.
pub fn is_proper(owner: u8, update: Update) -> bool
    ensures { result ≡ is_proper owner update }
{
    if owner == 0 {
        return is_of_kernel(update);
    }
    owner <= 4 && is_of_driver(update)
}
