//! The siblings of a struct: its fields and the arms of its unions, as annotations can name them.
ghost use Rattle.std.specs.Prelude.{◌≡◌, [], IfOk, min};
ghost use Rattle.deputy_types.specs.StructLayout as spec;
ghost use Rattle.deputy_types.specs.Siblings.{no_siblings};

use c_tree::{Arm, Declaration, Field};
use deputy_types::{MemberName, NameList, Role, Siblings, Types, declared_role};
use sd_base::Memory;
use std::alloc::Global;

/// Names with those that these arms have as their tag.
fn tags_of_arms(mut tags: NameList, arms: &[Arm]) -> Result<NameList, Memory>
    ensures { IfOk result (λ names. names ≡ spec.tags_of_arms tags arms.now) }
{
    for arm in arms {
        tags.add(&arm.tag)?;
    }
    Ok(tags)
}

/// The names of the fields that unions have as their tags.
fn tags_of(alloc: Global, fields: &[Field]) -> Result<NameList, Memory>
    ensures { IfOk result (λ names. names ≡ spec.tags_of [] fields.now) }
{
    let mut tags = NameList::new(alloc);
    for field in fields {
        match field {
            Field::Plain(_, _) => {}
            Field::Union(_, arms, _) => tags = tags_of_arms(tags, arms.as_slice())?,
        }
    }
    Ok(tags)
}

/// With a field among the siblings.
fn with_field_sibling(
    types: &Types,
    tags: &NameList,
    mut siblings: Siblings,
    d: &Declaration,
) -> Result<Siblings, Memory>
    ensures { IfOk result (λ s. s ≡ spec.with_field_sibling types.now tags.now siblings d.now) }
{
    let role = declared_role(types, d.size.is_some(), tags.has(&d.name), &d.type_name);
    siblings.add(
        &MemberName {
            part: None,
            name: d.name,
        },
        role,
    )?;
    Ok(siblings)
}

/// With the arms of the union with this number among the siblings.
fn with_arm_siblings(part: u32, mut siblings: Siblings, arms: &[Arm]) -> Result<Siblings, Memory>
    ensures { IfOk result (λ s. s ≡ spec.with_arm_siblings part siblings arms.now) }
{
    for arm in arms {
        siblings.add(
            &MemberName {
                part: Some(part),
                name: arm.name,
            },
            Role::Other,
        )?;
    }
    Ok(siblings)
}

/// With the fields of a struct and the arms of its unions among the siblings.
fn field_siblings(
    types: &Types,
    tags: &NameList,
    siblings: Siblings,
    fields: &[Field],
) -> Result<Siblings, Memory>
    ensures { IfOk result (λ s. s ≡ spec.field_siblings types.now tags.now 0 siblings fields.now) }
{
    let mut siblings = siblings;
    let mut part = 0;
    for field in fields {
        match field {
            Field::Plain(_, d) => siblings = with_field_sibling(types, tags, siblings, d)?,
            Field::Union(_, arms, _) => {
                siblings = with_arm_siblings(part, siblings, arms.as_slice())?;
                part = next_part(part);
            }
        }
    }
    Ok(siblings)
}

/// The number of the union behind the one with this number.
fn next_part(part: u32) -> u32
    ensures { result ≡ spec.next_part part }
{
    part.saturating_add(1)
}

/// The siblings of a struct.
#[tactic(auto, unfolding(deputy_types::specs::StructLayout::struct_siblings))]
pub(crate) fn struct_siblings(
    alloc: Global,
    types: &Types,
    fields: &[Field],
) -> Result<Siblings, Memory>
    ensures { IfOk result (λ s. s ≡ spec.struct_siblings types.now fields.now) }
{
    let tags = tags_of(alloc, fields)?;
    field_siblings(types, &tags, Siblings::new(alloc), fields)
}
