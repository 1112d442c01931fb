//! The types of elements that declarations and type names hold, in text order.
ghost use Rattle.std.specs.Prelude.{◌≡◌, IfOk, IfSome, OnOk};
ghost use Rattle.deputy_types.specs.Found as spec;
ghost use Rattle.deputy_types.specs.Keys.{IsKey};
ghost use Rattle.deputy_types.specs.Types as types;

use c_tree::{Arm, Field, Head, Local, Param, ResultBase, Star, TypeName};
use deputy_types::{Element, ElementList, NameList, base_key, star_key};
use sd_base::Memory;

/// Adds the elements of stars behind the type `first`; none where there is no such type.
fn add_stars(
    elements: &mut ElementList,
    first: Option<Element>,
    stars: &[Star],
) -> Result<(), Memory>
    requires { IfSome first IsKey }
    ensures { OnOk result (elements.new ≡ spec.with_stars elements.old first stars.now) }
{
    let mut key = first;
    for star in stars {
        match key {
            Some(known) => key = next_key(elements, known, star)?,
            None => return Ok(()),
        }
    }
    Ok(())
}

/// Adds a type as an element. Answers the type behind a star.
#[tactic(auto, using(deputy_types::proofs::KeyCounts::star_keys))]
fn next_key(
    elements: &mut ElementList,
    key: Element,
    star: &Star,
) -> Result<Option<Element>, Memory>
    requires { IsKey key }
    ensures elements { OnOk result (elements.new ≡ spec.with_element elements.old key) }
    ensures key { IfOk result (λ next. next ≡ types.star_key (spec.with_element elements.old key) key star.now) }
    ensures is_key { IfOk result (λ next. IfSome next IsKey) }
{
    elements.add(key)?;
    Ok(star_key(elements, &key, star))
}

/// Adds the elements of a type name's stars.
#[tactic(auto, using(deputy_types::proofs::KeyCounts::base_keys), unfolding(deputy_types::specs::Found::with_types))]
pub(crate) fn add_types(
    structs: &NameList,
    elements: &mut ElementList,
    name: &TypeName,
) -> Result<(), Memory>
    ensures { OnOk result (elements.new ≡ spec.with_types structs.now elements.old name.now) }
{
    add_stars(
        elements,
        base_key(structs, &name.base),
        name.stars.as_slice(),
    )
}

/// Adds the elements of stars behind the type `first`, and the type behind all of them.
fn add_whole_stars(
    elements: &mut ElementList,
    first: Option<Element>,
    stars: &[Star],
) -> Result<(), Memory>
    requires { IfSome first IsKey }
    ensures { OnOk result (elements.new ≡ spec.with_whole_stars elements.old first stars.now) }
{
    let mut key = first;
    for star in stars {
        match key {
            Some(known) => key = next_key(elements, known, star)?,
            None => return Ok(()),
        }
    }
    match key {
        Some(known) => elements.add(known),
        None => Ok(()),
    }
}

/// Adds the elements of a type name's stars, and the type itself: that of a global or of new memory.
#[tactic(auto, using(deputy_types::proofs::KeyCounts::base_keys), unfolding(deputy_types::specs::Found::with_whole_type))]
pub(crate) fn add_whole_type(
    structs: &NameList,
    elements: &mut ElementList,
    name: &TypeName,
) -> Result<(), Memory>
    ensures { OnOk result (elements.new ≡ spec.with_whole_type structs.now elements.old name.now) }
{
    add_whole_stars(
        elements,
        base_key(structs, &name.base),
        name.stars.as_slice(),
    )
}

/// Adds the elements of parameters.
fn add_params(
    structs: &NameList,
    elements: &mut ElementList,
    params: &[Param],
) -> Result<(), Memory>
    ensures { OnOk result (elements.new ≡ spec.with_params structs.now elements.old params.now) }
{
    for param in params {
        add_types(structs, elements, &param.type_name)?;
    }
    Ok(())
}

/// Adds the elements of locals.
pub(crate) fn add_locals(
    structs: &NameList,
    elements: &mut ElementList,
    locals: &[Local],
) -> Result<(), Memory>
    ensures { OnOk result (elements.new ≡ spec.with_locals structs.now elements.old locals.now) }
{
    for local in locals {
        add_types(structs, elements, &local.type_name)?;
    }
    Ok(())
}

/// The type that a result begins with. `void` is none.
#[tactic(auto, using(deputy_types::proofs::KeyCounts::base_keys))]
fn result_key(structs: &NameList, base: &ResultBase) -> Option<Element>
    ensures key { result ≡ spec.result_key structs.now base.now }
    ensures is_key { IfSome result IsKey }
{
    match base {
        ResultBase::Void => None,
        ResultBase::Base(written) => base_key(structs, written),
    }
}

/// Adds the elements of a head: its result and its parameters.
#[tactic(auto, unfolding(deputy_types::specs::Found::with_head))]
pub(crate) fn add_head(
    structs: &NameList,
    elements: &mut ElementList,
    head: &Head,
) -> Result<(), Memory>
    ensures { OnOk result (elements.new ≡ spec.with_head structs.now elements.old head.now) }
{
    add_stars(
        elements,
        result_key(structs, &head.result),
        head.stars.as_slice(),
    )?;
    add_params(structs, elements, head.params.as_slice())
}

/// Adds the elements of arms.
fn add_arms(structs: &NameList, elements: &mut ElementList, arms: &[Arm]) -> Result<(), Memory>
    ensures { OnOk result (elements.new ≡ spec.with_arms structs.now elements.old arms.now) }
{
    for arm in arms {
        add_types(structs, elements, &arm.type_name)?;
    }
    Ok(())
}

/// Adds the elements of a field.
#[tactic(auto, unfolding(deputy_types::specs::Found::with_field))]
fn add_field(structs: &NameList, elements: &mut ElementList, field: &Field) -> Result<(), Memory>
    ensures { OnOk result (elements.new ≡ spec.with_field structs.now elements.old field.now) }
{
    match field {
        Field::Plain(_, declaration) => add_types(structs, elements, &declaration.type_name),
        Field::Union(_, arms, _) => add_arms(structs, elements, arms.as_slice()),
    }
}

/// Adds the elements of fields.
pub(crate) fn add_fields(
    structs: &NameList,
    elements: &mut ElementList,
    fields: &[Field],
) -> Result<(), Memory>
    ensures { OnOk result (elements.new ≡ spec.with_fields structs.now elements.old fields.now) }
{
    for field in fields {
        add_field(structs, elements, field)?;
    }
    Ok(())
}
