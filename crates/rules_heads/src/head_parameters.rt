//! Which parameters of a head stand, and what calls see of them.
ghost use Rattle.std.specs.Prelude.{◌≡◌, Some, None, IfOk};
ghost use Rattle.deputy_rules.specs.Agreement as agreement;
ghost use Rattle.deputy_rules.specs.Heads as spec;

use crate::agreement::parameter_place;
use crate::declared::Shapes;
use c_tree::{Head, Param};
use checked_tree::Shape;
use sd_base::{Memory, Name};
use sqlite_items::{Items, at};
use std::alloc::Global;

/// Whether the i-th shape is there.
pub(crate) fn is_declared(shapes: &[Option<Shape>], i: usize) -> bool
    ensures { result ≡ spec.is_declared shapes.now i }
{
    match at(shapes, i) {
        Some(Some(_)) => true,
        Some(None) => false,
        None => false,
    }
}

/// Whether a place is this one.
fn is_place(place: Option<usize>, i: usize) -> bool
    ensures { result ≡ agreement.same_place place (Some i) }
{
    match place {
        Some(k) => k == i,
        None => false,
    }
}

/// Whether the i-th parameter of a head stands: it is the first that has its name, and its shape is derived.
#[tactic(auto, unfolding(deputy_rules::specs::Heads::head_parameter_stands))]
fn head_parameter_stands(params: &[Param], shapes: &[Option<Shape>], i: usize, name: &Name) -> bool
    ensures { result ≡ spec.head_parameter_stands params.now shapes.now i name.now }
{
    is_place(parameter_place(params, name), i) && is_declared(shapes, i)
}

/// The line of the first parameter that does not stand.
fn wrong_head_parameter(params: &[Param], shapes: &[Option<Shape>]) -> Option<u32>
    ensures { result ≡ spec.wrong_head_parameter params.now shapes.now 0 params.now }
{
    for (i, param) in params.iter().enumerate() {
        if !head_parameter_stands(params, shapes, i, &param.name) {
            return Some(param.line);
        }
    }
    None
}

/// The line of the first parameter of a head that does not stand, by the shapes of its parameters.
#[tactic(auto, unfolding(deputy_rules::specs::Heads::wrong_in_head))]
pub fn wrong_in_head(shapes: &[Option<Shape>], h: &Head) -> Option<u32>
    ensures { result ≡ spec.wrong_in_head shapes.now h.now }
{
    wrong_head_parameter(h.params.as_slice(), shapes)
}

/// Nothing, in place of a shape.
fn unseen(_shape: &Option<Shape>) -> Option<Shape>
    ensures { result ≡ None }
{
    None
}

/// None of these shapes.
fn no_shapes(alloc: Global, shapes: &[Option<Shape>]) -> Result<Shapes, Memory>
    ensures { IfOk result (λ none. none ≡ spec.no_shapes shapes.now) }
{
    let mut none = Items::new(alloc);
    for shape in shapes {
        none.push(unseen(shape))?;
    }
    Ok(none)
}

/// What calls see of the parameters: their shapes where each stands, and else none. The only refusal is want of memory.
#[tactic(auto, unfolding(deputy_rules::specs::Heads::seen_shapes))]
pub(crate) fn seen_shapes(alloc: Global, shapes: Shapes, h: &Head) -> Result<Shapes, Memory>
    ensures { IfOk result (λ seen. seen ≡ spec.seen_shapes shapes h.now) }
{
    match wrong_in_head(shapes.as_slice(), h) {
        None => Ok(shapes),
        Some(_) => no_shapes(alloc, shapes.as_slice()),
    }
}
