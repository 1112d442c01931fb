//! Why an order is not carried out: the first obstacle of its list that holds.
ghost use Rattle.std.specs.Prelude.{◌≡◌, slice_get, take, position, option_copied, option_map};
ghost use Rattle.std.specs.List.{list_all};
ghost use Rattle.world_core.specs.Loading as loading;

use checked_tree::{CheckedFn, CheckedUnit, Scalar, Shape};
use run_report::Obstacle;
use safe_code::{SafeDriver, functions_are_few};
use world_core::Standing;

// ---- `load`

/// Why a load is refused, by how the driver stands, its `init`, and whether the task is busy.
pub fn load_obstacle(standing: Standing, init: Option<u32>, is_busy: bool) -> Option<Obstacle>
    ensures { result ≡ loading.load_obstacle standing init is_busy }
{
    match standing {
        Standing::Loaded => Some(Obstacle::Loaded),
        Standing::Failed => Some(Obstacle::Failed),
        Standing::Absent => match init {
            None => Some(Obstacle::NoInit),
            Some(_function) => { if is_busy { Some(Obstacle::Busy) } else { None } }
        },
    }
}

fn is_int(scalar: Scalar) -> bool
    ensures { result ≡ loading.is_int scalar }
{
    match scalar {
        Scalar::I32 => true,
        _ => false,
    }
}

/// Whether it is `int init(void)`.
fn is_init(function: &CheckedFn) -> bool
    ensures { result ≡ loading.is_init function.now }
{
    function.name.bytes() == b"init".as_slice() && (function.params == 0 && is_int(function.result))
}

fn place_of_init(functions: &[CheckedFn]) -> Option<usize>
    ensures { result ≡ position loading.is_init functions.now }
{
    functions.iter().position(|function| is_init(function))
}

// ---- `restart`, `unload`

/// Why a restart is refused.
pub fn restart_obstacle(standing: Standing, is_busy: bool) -> Option<Obstacle>
    ensures { result ≡ loading.restart_obstacle standing is_busy }
{
    match standing {
        Standing::Absent => Some(Obstacle::Absent),
        Standing::Loaded => Some(Obstacle::Loaded),
        Standing::Failed => { if is_busy { Some(Obstacle::Busy) } else { None } }
    }
}

/// Why a driver cannot leave; it is busy where it has an activity.
pub fn unload_obstacle(standing: Standing, is_busy: bool) -> Option<Obstacle>
    ensures { result ≡ loading.unload_obstacle standing is_busy }
{
    match standing {
        Standing::Absent => Some(Obstacle::Absent),
        Standing::Loaded => { if is_busy { Some(Obstacle::Busy) } else { None } }
        Standing::Failed => { if is_busy { Some(Obstacle::Busy) } else { None } }
    }
}

// ---- `call`

fn is_integer(shape: &Shape) -> bool
    ensures { result ≡ loading.is_integer_shape shape.now }
{
    match shape {
        Shape::Int(_scalar) => true,
        _ => false,
    }
}

fn is_pointer(scalar: Scalar) -> bool
    ensures { result ≡ loading.is_pointer scalar }
{
    match scalar {
        Scalar::Pointer { .. } => true,
        _ => false,
    }
}

/// The slots of the parameters: the first ones.
fn parameters(slots: &[Shape], params: u32) -> &[Shape]
    ensures { result.now ≡ take params slots.now }
{
    if (params as usize) < slots.len() {
        return &slots[..params as usize];
    }
    slots
}

fn are_integers(shapes: &[Shape]) -> bool
    ensures { result ≡ list_all loading.is_integer_shape shapes.now }
{
    shapes.iter().all(|shape| is_integer(shape))
}

/// Whether a function can be called with so many values: no parameter and no result is a pointer, and there are as many parameters.
fn takes_values(function: Option<&CheckedFn>, values: usize) -> bool
    ensures { result ≡ loading.takes_values (option_copied function.entry) values }
{
    match function {
        None => false,
        Some(f) => {
            are_integers(parameters(f.slots.as_slice(), f.params))
                && (!is_pointer(f.result) && values == f.params as usize)
        }
    }
}

/// Why a call is refused, by how the driver stands, the function, whether the values fit it, and whether the task is busy.
pub fn call_obstacle(
    standing: Standing,
    function: Option<u32>,
    fits: bool,
    is_busy: bool,
) -> Option<Obstacle>
    ensures { result ≡ loading.call_obstacle standing function fits is_busy }
{
    match standing {
        Standing::Absent => Some(Obstacle::Absent),
        Standing::Failed => None,
        Standing::Loaded => match function {
            None => Some(Obstacle::NoFunction),
            Some(_number) => {
                if !fits {
                    Some(Obstacle::Arguments)
                } else if is_busy {
                    Some(Obstacle::Busy)
                } else {
                    None
                }
            }
        },
    }
}

/// Whether so many values fit the function with this number, if there is one.
pub fn fits_values(unit: &CheckedUnit, function: Option<u32>, values: usize) -> bool
    ensures { result ≡ loading.fits_values unit.now function values }
{
    match function {
        None => false,
        Some(number) => takes_values(unit.functions.as_slice().get(number as usize), values),
    }
}

/// The number of a driver's `init`, if it has one.
pub fn init_of(driver: &SafeDriver) -> Option<u32>
    ensures { result ≡ loading.init_of driver.now.unit }
{
    functions_are_few();
    match place_of_init(driver.unit().functions.as_slice()) {
        Some(place) => Some(place as u32),
        None => None,
    }
}
