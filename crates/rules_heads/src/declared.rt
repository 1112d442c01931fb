//! Heads, parameters and locals: what a function is declared to take, to hold and to return. The only refusal is want of memory.
ghost use Rattle.std.specs.Prelude.{◌≡◌, ◌++◌, [], ◌∷◌, Some, None, true, false, map, IfOk, OnOk};
ghost use Rattle.checked_tree.specs.declared.shapes.Shape.TheVariants as shaped;
ghost use Rattle.deputy_types.specs.declared.sibling.Unannotated.TheVariants as unannotated;
ghost use Rattle.deputy_types.specs.Declarations as declarations;
ghost use Rattle.deputy_rules.specs.Heads as spec;
ghost use Rattle.deputy_types.specs.Options.{and_then};
ghost use Rattle.deputy_types.specs.Siblings.{no_siblings, with_sibling};

use crate::head_parameters::seen_shapes;
use c_tree::{Base, Function, Head, Local, Param, ResultBase, Star, TypeName};
use checked_tree::Shape;
use dep_infer::is_automatic;
use deputy_rules::{Returned, Signature};
use deputy_types::{
    MemberName, Siblings, TypeTable, Unannotated, base_key, front_stars, last_star, shape_behind,
    stars_key,
};
use rules_types::value_shape;
use sd_base::{Memory, Name};
use sqlite_items::Items;
use std::alloc::Global;

/// The shapes of parameters or slots, none where a declaration is not derived.
pub type Shapes = Items<Option<Shape>>;

/// Adds a parameter or local to what annotations can name.
fn add_sibling(
    siblings: &mut Siblings,
    table: &TypeTable,
    name: &Name,
    type_name: &TypeName,
) -> Result<(), Memory>
    ensures { OnOk result (siblings.new ≡ with_sibling siblings.old (record { part = None; name = name.now }) (declarations.declared_role table.now.types false false type_name.now)) }
{
    let member = MemberName {
        part: None,
        name: *name,
    };
    siblings.add(&member, table.declared_role(false, false, type_name))
}

/// What annotations of parameters can name: the parameters.
#[tactic(auto, unfolding(deputy_rules::specs::Heads::parameter_siblings))]
fn parameter_siblings(
    alloc: Global,
    table: &TypeTable,
    params: &[Param],
) -> Result<Siblings, Memory>
    ensures { IfOk result (λ s. s ≡ spec.parameter_siblings table.now.types params.now) }
{
    let mut siblings = Siblings::new(alloc);
    for param in params {
        add_sibling(&mut siblings, table, &param.name, &param.type_name)?;
    }
    Ok(siblings)
}

/// With locals, what annotations of locals can name.
fn with_locals(table: &TypeTable, locals: &[Local], siblings: Siblings) -> Result<Siblings, Memory>
    ensures { IfOk result (λ s. s ≡ spec.with_locals table.now.types locals.now siblings) }
{
    let mut all = siblings;
    for local in locals {
        add_sibling(&mut all, table, &local.name, &local.type_name)?;
    }
    Ok(all)
}

/// What annotations of locals can name: parameters and locals.
#[tactic(auto, unfolding(deputy_rules::specs::Heads::local_siblings))]
fn local_siblings(alloc: Global, table: &TypeTable, f: &Function) -> Result<Siblings, Memory>
    ensures { IfOk result (λ s. s ≡ spec.local_siblings table.now.types f.now) }
{
    let parameters = parameter_siblings(alloc, table, f.head.params.as_slice())?;
    with_locals(table, f.locals.as_slice(), parameters)
}

/// The same where there is a shape.
fn if_value(shape: Option<Shape>) -> Option<Shape>
    ensures { result ≡ and_then shape spec.value_shape }
{
    match shape {
        Some(found) => value_shape(found),
        None => None,
    }
}

/// The shape that a type name declares for the sibling with this name, if it is that of an integer or a pointer.
#[tactic(auto, unfolding(deputy_rules::specs::Heads::named_shape))]
fn named_shape(
    alloc: Global,
    table: &TypeTable,
    plain: Unannotated,
    siblings: &Siblings,
    name: &Name,
    type_name: &TypeName,
) -> Result<Option<Shape>, Memory>
    ensures { IfOk result (λ s. s ≡ spec.named_shape table.now plain siblings.now name.now type_name.now) }
{
    match siblings.number(name) {
        Some(place) => {
            let shape = table.declared_shape(alloc, plain, siblings, place, type_name)?;
            Ok(if_value(shape))
        }
        None => Ok(None),
    }
}

/// The shapes of parameters, by place.
#[tactic(auto, unfolding(deputy_rules::specs::Heads::parameter_shapes))]
pub fn parameter_shapes(
    alloc: Global,
    table: &TypeTable,
    params: &[Param],
) -> Result<Shapes, Memory>
    ensures { IfOk result (λ shapes. shapes ≡ spec.parameter_shapes table.now params.now) }
{
    let siblings = parameter_siblings(alloc, table, params)?;
    shapes_of_parameters(alloc, table, &siblings, params)
}

/// The same among these siblings.
fn shapes_of_parameters(
    alloc: Global,
    table: &TypeTable,
    siblings: &Siblings,
    params: &[Param],
) -> Result<Shapes, Memory>
    ensures { IfOk result (λ shapes. shapes ≡ map (spec.parameter_shape table.now siblings.now) params.now) }
{
    let mut shapes = Items::new(alloc);
    for param in params {
        let plain = Unannotated::Safe;
        shapes.push(named_shape(alloc, table, plain, siblings, &param.name, &param.type_name)?)?;
    }
    Ok(shapes)
}

/// The shapes of locals among these siblings.
fn shapes_of_locals(
    alloc: Global,
    table: &TypeTable,
    siblings: &Siblings,
    locals: &[Local],
) -> Result<Shapes, Memory>
    ensures { IfOk result (λ shapes. shapes ≡ map (spec.local_shape table.now siblings.now) locals.now) }
{
    let mut shapes = Items::new(alloc);
    for local in locals {
        let plain = Unannotated::Hidden;
        shapes.push(named_shape(alloc, table, plain, siblings, &local.name, &local.type_name)?)?;
    }
    Ok(shapes)
}

/// Two addresses more.
fn with_addresses(shapes: Shapes) -> Result<Shapes, Memory>
    ensures { IfOk result (λ more. more ≡ shapes ++ (Some shaped.Address ∷ Some shaped.Address ∷ [])) }
{
    let mut more = shapes;
    more.push(Some(Shape::Address))?;
    more.push(Some(Shape::Address))?;
    Ok(more)
}

/// Two addresses more for each local that takes its bounds with it.
fn with_hidden(locals: &[Local], shapes: Shapes) -> Result<Shapes, Memory>
    ensures { IfOk result (λ all. all ≡ spec.with_hidden locals.now shapes) }
{
    let mut all = shapes;
    for local in locals {
        if is_automatic(local) {
            all = with_addresses(all)?;
        }
    }
    Ok(all)
}

/// The shapes of a function's slots: parameters, locals, then the hidden bounds of the locals.
#[tactic(auto, unfolding(deputy_rules::specs::Heads::slot_shapes))]
pub fn slot_shapes(alloc: Global, table: &TypeTable, f: &Function) -> Result<Shapes, Memory>
    ensures { IfOk result (λ shapes. shapes ≡ spec.slot_shapes table.now f.now) }
{
    let locals = f.locals.as_slice();
    let siblings = local_siblings(alloc, table, f)?;
    let mut shapes = parameter_shapes(alloc, table, f.head.params.as_slice())?;
    shapes.append(shapes_of_locals(alloc, table, &siblings, locals)?)?;
    with_hidden(locals, shapes)
}

/// What these stars make of a base, with constant annotations alone.
#[tactic(auto, unfolding(deputy_types::specs::Declarations::typed_shape, deputy_types::specs::Types::pointed_key))]
fn base_shape(
    alloc: Global,
    table: &TypeTable,
    base: &Base,
    stars: &[Star],
) -> Result<Option<Shape>, Memory>
    ensures { IfOk result (λ s. s ≡ declarations.declared_shape table.now unannotated.Safe no_siblings 0 (record { base = base.now; stars = stars.now })) }
{
    let types = table.types();
    let Some(key) = base_key(&types.structs, base) else {
        return Ok(None);
    };
    let Some(pointed) = stars_key(&types.elements, &key, front_stars(stars)) else {
        return Ok(None);
    };
    let siblings = Siblings::new(alloc);
    shape_behind(
        alloc,
        types,
        table.extents(),
        Unannotated::Safe,
        &siblings,
        0,
        &pointed,
        last_star(stars),
    )
}

/// What a result of this shape is.
fn value_result(shape: Option<Shape>) -> Option<Returned>
    ensures { result ≡ spec.value_result shape }
{
    match if_value(shape) {
        Some(found) => Some(Returned::Value(found)),
        None => None,
    }
}

/// The result of a head: `void`, or an integer or a pointer with a constant annotation. None where it is no such type.
#[tactic(auto, unfolding(deputy_rules::specs::Heads::result_of))]
pub fn result_of(alloc: Global, table: &TypeTable, head: &Head) -> Result<Option<Returned>, Memory>
    ensures { IfOk result (λ r. r ≡ spec.result_of table.now head.now) }
{
    let stars = head.stars.as_slice();
    match &head.result {
        ResultBase::Void => match stars {
            [] => Ok(Some(Returned::Nothing)),
            [_, ..] => Ok(None),
        },
        ResultBase::Base(base) => Ok(value_result(base_shape(alloc, table, base, stars)?)),
    }
}

/// What calls see of a function.
#[tactic(auto, unfolding(deputy_rules::specs::Heads::signature_of))]
pub(crate) fn signature_of(
    alloc: Global,
    table: &TypeTable,
    f: &Function,
) -> Result<Signature, Memory>
    ensures { IfOk result (λ s. s ≡ spec.signature_of table.now f.now) }
{
    let shapes = parameter_shapes(alloc, table, f.head.params.as_slice())?;
    let params = seen_shapes(alloc, shapes, &f.head)?;
    let returned = result_of(alloc, table, &f.head)?;
    Ok(Signature {
        name: f.head.name,
        params,
        result: returned,
    })
}
