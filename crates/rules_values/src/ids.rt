//! The numbers of the checks of a form, in the order in which they are tested. The only refusal is want of memory.
ghost use Rattle.std.specs.Prelude.{◌≡◌, [], ◌∷◌, ◌++◌, IfOk};

use sqlite_items::Items;
use std::alloc::{AllocError, Global};

/// The numbers of the checks of a form.
pub type Ids = Items<usize>;

/// A list of one number.
pub fn one(alloc: Global, id: usize) -> Result<Ids, AllocError>
    ensures { IfOk result (λ ids. ids ≡ id ∷ []) }
{
    let mut ids = Items::new(alloc);
    ids.push(id)?;
    Ok(ids)
}

/// The numbers of two lists, one behind the other.
pub fn joined(first: Ids, second: Ids) -> Result<Ids, AllocError>
    ensures { IfOk result (λ ids. ids ≡ first ++ second) }
{
    let mut ids = first;
    ids.append(second)?;
    Ok(ids)
}

/// One number more.
pub fn with_id(ids: Ids, id: usize) -> Result<Ids, AllocError>
    ensures { IfOk result (λ more. more ≡ ids ++ id ∷ []) }
{
    let mut more = ids;
    more.push(id)?;
    Ok(more)
}
