//! Calls that allocate blocks and give them back.
ghost use Rattle.std.specs.Prelude.{◌≡◌, ℕ, ◌<◌, ◌≤◌, ◌+◌, ◌*◌, ◌^◌, pos};
ghost use Rattle.sd_base.specs.Numbers.{number_of};
ghost use Rattle.update_tracker.specs.declared.undo.Reply.TheVariants.{Base};
ghost use Rattle.wrappers.specs.Rows as row;
ghost use Rattle.wrappers.specs.Serving.{ServesRow, IsStop};

use crate::CallOut;
use sd_base::{FailKind, Fat, Layout, Update};
use update_tracker::{Reply, Tracked};

/// The null pointer.
const NULL: Fat = Fat {
    value: 0,
    lo: 0,
    hi: 0,
};

/// A number of elements, where 32 bits hold it.
fn element_count(n: i64) -> Option<u32>
    ensures { result ≡ number_of 4294967296 n }
{
    if n < 0 || n > 4_294_967_295 {
        return None;
    }
    Some(n as u32)
}

/// A pointer to the first of `n` elements of this size from `base` on, bounded by them. A block that was granted ends within the arena, so
/// nothing saturates.
fn block(base: u32, size: u32, n: i64) -> Fat
    ensures { (count : ℕ) → n ≡ pos count → count < 2 ^ 32 → base + size * count < 2 ^ 32 →
        result ≡ row.block base size count }
{
    let count = element_count(n).unwrap_or(0);
    Fat {
        value: base,
        lo: base,
        hi: base.saturating_add(size.saturating_mul(count)),
    }
}

/// The pointer that a grant of `n` elements of this size is answered with.
fn pointer(reply: Reply, size: u32, n: i64) -> Fat
    ensures { (base count : ℕ) → reply ≡ Base base → n ≡ pos count → count < 2 ^ 32 → base + size * count < 2 ^ 32 →
        result ≡ row.block base size count }
{
    match reply {
        Reply::Base(base) => block(base, size, n),
        Reply::Done => NULL,
    }
}

/// `kalloc(T, n)`: a new block of n elements, or null.
pub fn kalloc(kernel: &mut Tracked, owner: u8, elem: u32, size: u32, n: i64) -> CallOut
    requires driver { 0 < owner }
    requires owner { owner ≤ 4 }
    ensures serves { ServesRow kernel.old owner (λ share h. row.kalloc h owner elem size n) result kernel.new }
    ensures share { kernel.new.kernel.claims.share ≡ kernel.old.kernel.claims.share }
    ensures undone { kernel.new.undone ≡ kernel.old.undone }
    ensures stopped { IsStop result (kernel.new ≡ kernel.old) }
{
    if size == 0 {
        return CallOut::Pointer(NULL);
    }
    let layout = Layout {
        elem,
        size,
        nullterm: false,
    };
    match kernel.update(
        owner,
        Update::Grant {
            layout,
            n,
            image: false,
        },
    ) {
        Ok(reply) => CallOut::Pointer(pointer(reply, size, n)),
        Err(_) => CallOut::Pointer(NULL),
    }
}

/// `kfree(p)`: the block that begins at this address is given back; nothing for null.
pub fn kfree(kernel: &mut Tracked, owner: u8, base: u32) -> CallOut
    requires driver { 0 < owner }
    requires owner { owner ≤ 4 }
    ensures serves { ServesRow kernel.old owner (λ share h. row.kfree h owner base) result kernel.new }
    ensures share { kernel.new.kernel.claims.share ≡ kernel.old.kernel.claims.share }
    ensures undone { kernel.new.undone ≡ kernel.old.undone }
    ensures stopped { IsStop result (kernel.new ≡ kernel.old) }
{
    if base == 0 {
        return CallOut::Reply(0);
    }
    match kernel.update(owner, Update::Free { base }) {
        Ok(_) => CallOut::Reply(0),
        Err(_) => CallOut::Fail(FailKind::Free),
    }
}
