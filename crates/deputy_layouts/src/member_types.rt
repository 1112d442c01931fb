//! What the rules of expressions look up of a struct's members beside their shapes: which are arrays, and their types.
ghost use Rattle.std.specs.Prelude.{◌≡◌, ◌++◌, IfOk};
ghost use Rattle.deputy_types.specs.MemberTypes as spec;

use c_tree::{Arm, Field};
use deputy_types::{Element, Types, type_key};
use sd_base::Memory;
use sqlite_items::Items;
use std::alloc::Global;

/// With `false` for each arm: none is an array.
fn with_arm_arrays(mut arrays: Items<bool>, arms: &[Arm]) -> Result<Items<bool>, Memory>
    ensures { IfOk result (λ all. all ≡ arrays ++ spec.arm_arrays arms.now) }
{
    for _arm in arms {
        arrays.push(false)?;
    }
    Ok(arrays)
}

/// With whether each member of a field is an array.
fn with_arrays_of(mut arrays: Items<bool>, field: &Field) -> Result<Items<bool>, Memory>
    ensures { IfOk result (λ all. all ≡ arrays ++ spec.arrays_of field.now) }
{
    match field {
        Field::Plain(_, d) => {
            arrays.push(d.size.is_some())?;
            Ok(arrays)
        }
        Field::Union(_, arms, _) => with_arm_arrays(arrays, arms.as_slice()),
    }
}

/// By member, in text order: whether it is an array.
pub(crate) fn member_arrays(alloc: Global, fields: &[Field]) -> Result<Items<bool>, Memory>
    ensures { IfOk result (λ all. all ≡ spec.member_arrays fields.now) }
{
    let mut arrays = Items::new(alloc);
    for field in fields {
        arrays = with_arrays_of(arrays, field)?;
    }
    Ok(arrays)
}

/// With the type of each arm.
fn with_arm_keys(
    types: &Types,
    mut keys: Items<Option<Element>>,
    arms: &[Arm],
) -> Result<Items<Option<Element>>, Memory>
    ensures { IfOk result (λ all. all ≡ keys ++ spec.arm_keys types.now arms.now) }
{
    for arm in arms {
        keys.push(type_key(types, &arm.type_name))?;
    }
    Ok(keys)
}

/// With the type of each member of a field.
fn with_keys_of(
    types: &Types,
    mut keys: Items<Option<Element>>,
    field: &Field,
) -> Result<Items<Option<Element>>, Memory>
    ensures { IfOk result (λ all. all ≡ keys ++ spec.keys_of types.now field.now) }
{
    match field {
        Field::Plain(_, d) => {
            keys.push(type_key(types, &d.type_name))?;
            Ok(keys)
        }
        Field::Union(_, arms, _) => with_arm_keys(types, keys, arms.as_slice()),
    }
}

/// By member, in text order: its type, of an array that of an element; none where its annotation is not constant.
pub(crate) fn member_keys(
    alloc: Global,
    types: &Types,
    fields: &[Field],
) -> Result<Items<Option<Element>>, Memory>
    ensures { IfOk result (λ all. all ≡ spec.member_keys types.now fields.now) }
{
    let mut keys = Items::new(alloc);
    for field in fields {
        keys = with_keys_of(types, keys, field)?;
    }
    Ok(keys)
}
