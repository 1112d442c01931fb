//! An assignment to a tag: it keeps its value, or all bytes of its union are 0.
ghost use Rattle.std.specs.Prelude.{◌≡◌, IfOk, option_copied, unwrap_or, option_map, slice_get, [], ◌∷◌};
ghost use Rattle.deputy_rules.specs.Changes as spec;
ghost use Rattle.deputy_rules.specs.Deriving.{Derives};

use checked_tree::{Part, Scalar, Sum, UnionShape, copied_sum};
use deputy_rules::{Asked, AskedCond, DerivingRefusal, Place};
use deputy_types::TypeTable;
use rules_values::{Context, Ids, ask, atom_part, beyond, boxed_copy, load_form, one, with_part};
use sd_base::CheckKind;
use sqlite_items::{Items, at};
use std::alloc::{AllocError, Global};

/// The union of which a member is the tag.
fn tagged(unions: &[UnionShape], member: u32) -> Option<UnionShape>
    ensures { result ≡ spec.tagged unions.now member }
{
    for union in unions {
        if union.tag == member {
            return Some(*union);
        }
    }
    None
}

/// The same, of a struct by its number.
fn tagged_in(types: &TypeTable, structure: u32, member: u32) -> Option<UnionShape>
    ensures { result ≡ spec.tagged (spec.unions_of types.now structure) member }
{
    match at(types.structs(), structure as usize) {
        Some(found) => tagged(found.unions.as_slice(), member),
        None => None,
    }
}

/// The address of a union, from that of its tag. The only refusal is want of memory.
#[tactic(auto, unfolding(deputy_rules::specs::Changes::union_address))]
fn union_address(at: Sum, tag: u32, part: u32) -> Result<Sum, AllocError>
    ensures { IfOk result (λ s. s ≡ spec.union_address at tag part) }
{
    let reached = beyond(at, i64::from(part))?;
    let back = Part::Constant {
        times: -1,
        value: i64::from(tag),
    };
    with_part(reached, back)
}

/// The value of a place, in a check. The only refusal is want of memory.
fn loaded(alloc: Global, scalar: Scalar, place: &Place) -> Result<Part, AllocError>
    ensures { IfOk result (λ p. p ≡ spec.loaded scalar place.now) }
{
    let form = load_form(alloc, scalar, boxed_copy(alloc, place.form.get())?)?;
    atom_part(alloc, form.get())
}

/// Asks that the tag at this place keeps its value, or all bytes of its union are 0.
#[tactic(auto, unfolding(deputy_rules::specs::Deriving::bind, deputy_rules::specs::Changes::ask_kept))]
fn ask_kept(
    alloc: Global,
    ctx: &Context<'_>,
    place: &Place,
    offset: u32,
    scalar: Scalar,
    new: Part,
    union: UnionShape,
    asked: &mut Items<Asked>,
) -> Result<Ids, DerivingRefusal>
    ensures { Derives (spec.ask_kept ctx.now place.now offset scalar new union asked.old) result asked.new }
{
    let kept = AskedCond::Kept {
        old: loaded(alloc, scalar, place)?,
        new,
        at: union_address(copied_sum(alloc, &place.at)?, offset, union.offset)?,
        size: union.size,
    };
    let id = ask(ctx, CheckKind::Change, kept, asked)?;
    Ok(one(alloc, id)?)
}

/// The same where the member is the tag of a union.
fn optional_kept(
    alloc: Global,
    ctx: &Context<'_>,
    place: &Place,
    offset: u32,
    scalar: Scalar,
    new: Part,
    union: Option<UnionShape>,
    asked: &mut Items<Asked>,
) -> Result<Ids, DerivingRefusal>
    ensures { Derives (spec.optional_kept ctx.now place.now offset scalar new union asked.old) result asked.new }
{
    match union {
        Some(found) => ask_kept(alloc, ctx, place, offset, scalar, new, found, asked),
        None => Ok(Items::new(alloc)),
    }
}

/// Asks for the check that an assignment to a member needs where the member is the tag of a union: the tag keeps its value, or all bytes of the union are 0.
#[tactic(auto, unfolding(deputy_rules::specs::Changes::tag_change))]
pub fn tag_change(
    alloc: Global,
    ctx: &Context<'_>,
    place: &Place,
    structure: u32,
    member: u32,
    offset: u32,
    scalar: Scalar,
    new: Part,
    asked: &mut Items<Asked>,
) -> Result<Ids, DerivingRefusal>
    ensures { Derives (spec.tag_change ctx.now place.now structure member offset scalar new asked.old) result asked.new }
{
    let union = tagged_in(ctx.types, structure, member);
    optional_kept(alloc, ctx, place, offset, scalar, new, union, asked)
}
