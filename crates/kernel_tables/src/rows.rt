//! Rows of each table by their place. What a place says past the last row is how far past it lies, so that the next table is asked
//! with that.
ghost use Rattle.std.specs.Prelude.{◌≡◌, ◌≤◌, [], ◌∷◌, false, map, pos};
ghost use Rattle.std.specs.List.{list_any};
ghost use Rattle.claim_table.specs.ClaimRows.{is_wide};
ghost use Rattle.share_table.specs.Locks.{lock_at};
ghost use Rattle.share_table.specs.Masks.{mask_at};
ghost use Rattle.share_table.specs.Holds.{held_by_all};
ghost use Rattle.kernel_tables.specs.Places.{look_up};
ghost use Rattle.kernel_tables.specs.TableRows.{block_row, line_row, ports_row, device_row, param_row, timer_row, lock_row, lock_rows, mask_row, masks_of_owner, mask_rows, hold_row, hold_rows, work_row};
ghost use Rattle.kernel_tables.specs.KernelRows.{grant_rows, claim_rows, timer_rows, share_rows};

use crate::row::{Found, Row};
use claim_table::{Claim, Claims};
use grant_table::{BlockRow, Grants};
use sd_base::Who;
use sd_base::limits::{DOMAINS, LOCKS, OWNERS, TASKS};
use share_table::Shares;
use timer_table::Timers;

/// The owners, numbered from 0.
const OWNER_COUNT: u8 = OWNERS as u8;
/// The locks, numbered from 0.
const LOCK_COUNT: u8 = LOCKS as u8;
/// The activities of an owner: its handlers, which are 0, and its tasks.
const TASK_COUNT: u8 = TASKS + 1;
/// The power domains, numbered from 0.
const DOMAIN_COUNT: u8 = DOMAINS as u8;

/// The only row, or how far past it the place lies.
fn only(row: Row, k: u32) -> Found
    ensures { result ≡ look_up (row ∷ []) k }
{
    if k == 0 {
        return Found::At(row);
    }
    Found::Past(k - 1)
}

/// A row of an owner's blocks.
fn block_of(blocks: &[BlockRow], owner: u8, k: u32) -> Found
    ensures { result ≡ look_up (map (block_row owner) blocks.now) k }
{
    let place = k as usize;
    if place >= blocks.len() {
        return Found::Past(k - blocks.len() as u32);
    }
    let block = blocks[place];
    Found::At(Row::Block {
        owner,
        base: block.base,
        size: block.size,
        state: block.state,
    })
}

/// A row of all blocks, by owner and base.
pub fn block(grants: &Grants, k: u32) -> Found
    ensures { result ≡ look_up (grant_rows grants.now) k }
{
    let mut left = k;
    for owner in 0..OWNER_COUNT {
        match block_of(grants.blocks(owner), owner, left) {
            Found::At(row) => return Found::At(row),
            Found::Past(past) => left = past,
        }
    }
    Found::Past(left)
}

/// A row of lines.
fn line(lines: &[Claim<u32>], k: u32) -> Found
    ensures { result ≡ look_up (map line_row lines.now) k }
{
    let place = k as usize;
    if place >= lines.len() {
        return Found::Past(k - lines.len() as u32);
    }
    let claim = lines[place];
    Found::At(Row::Line {
        line: i32::from(claim.number),
        owner: claim.owner,
        handler: claim.detail,
    })
}

/// A row of ranges of ports.
fn range(ports: &[Claim<u32>], k: u32) -> Found
    requires { list_any is_wide ports.now ≡ false }
    ensures { result ≡ look_up (map ports_row ports.now) k }
{
    let place = k as usize;
    if place >= ports.len() {
        return Found::Past(k - ports.len() as u32);
    }
    let claim = ports[place];
    Found::At(Row::Ports {
        base: i32::from(claim.number),
        n: claim.detail as i32,
        owner: claim.owner,
    })
}

/// A row of devices.
fn device(devices: &[Claim<()>], k: u32) -> Found
    ensures { result ≡ look_up (map device_row devices.now) k }
{
    let place = k as usize;
    if place >= devices.len() {
        return Found::Past(k - devices.len() as u32);
    }
    let claim = devices[place];
    Found::At(Row::Device {
        id: i32::from(claim.number),
        owner: claim.owner,
    })
}

/// A row of parameters.
fn param(params: &[Claim<i32>], k: u32) -> Found
    ensures { result ≡ look_up (map param_row params.now) k }
{
    let place = k as usize;
    if place >= params.len() {
        return Found::Past(k - params.len() as u32);
    }
    let claim = params[place];
    Found::At(Row::Param {
        key: i32::from(claim.number),
        value: claim.detail,
        owner: claim.owner,
    })
}

/// A row of what is claimed: lines, ports, devices, parameters.
pub fn claim(claims: &Claims, k: u32) -> Found
    ensures { result ≡ look_up (claim_rows claims.now) k }
{
    let k = match line(claims.lines(), k) {
        Found::At(row) => return Found::At(row),
        Found::Past(past) => past,
    };
    let k = match range(claims.ports(), k) {
        Found::At(row) => return Found::At(row),
        Found::Past(past) => past,
    };
    let k = match device(claims.devices(), k) {
        Found::At(row) => return Found::At(row),
        Found::Past(past) => past,
    };
    param(claims.latest_params(), k)
}

/// A row of live timers, by owner and id.
pub fn timer(timers: &Timers, k: u32) -> Found
    ensures { result ≡ look_up (timer_rows timers.now) k }
{
    match timers.timer(k) {
        None => Found::Past(k - timers.len()),
        Some(timer) => Found::At(Row::Timer {
            owner: timer.owner,
            id: timer.id,
            due: timer.due,
            handler: timer.handler,
            arg: timer.arg,
        }),
    }
}

/// The row of a lock, if it is held.
fn lock_of(shares: &Shares, lock: u8, k: u32) -> Found
    ensures { result ≡ look_up (lock_row lock (lock_at shares.now.locks (pos lock))) k }
{
    match shares.lock_holder(i32::from(lock)) {
        None => Found::Past(k),
        Some(who) => only(
            Row::Lock {
                lock: i32::from(lock),
                who,
            },
            k,
        ),
    }
}

/// A row of held locks.
fn lock(shares: &Shares, k: u32) -> Found
    ensures { result ≡ look_up (lock_rows (λ lock. lock_at shares.now.locks (pos lock))) k }
{
    let mut left = k;
    for lock in 0..LOCK_COUNT {
        match lock_of(shares, lock, left) {
            Found::At(row) => return Found::At(row),
            Found::Past(past) => left = past,
        }
    }
    Found::Past(left)
}

/// The row of an activity's mask, if it is held.
fn mask_of(shares: &Shares, owner: u8, task: u8, k: u32) -> Found
    requires owner { owner ≤ 4 }
    requires task { task ≤ 8 }
    ensures { result ≡ look_up (mask_row owner task (mask_at shares.now.masks owner task)) k }
{
    let who = Who { owner, task };
    if shares.holds_mask(who) {
        return only(Row::Mask { who }, k);
    }
    Found::Past(k)
}

/// A row of the masks of an owner's activities.
fn mask_of_owner(shares: &Shares, owner: u8, k: u32) -> Found
    requires { owner ≤ 4 }
    ensures { result ≡ look_up (masks_of_owner owner (mask_at shares.now.masks owner)) k }
{
    let mut left = k;
    for task in 0..TASK_COUNT {
        match mask_of(shares, owner, task, left) {
            Found::At(row) => return Found::At(row),
            Found::Past(past) => left = past,
        }
    }
    Found::Past(left)
}

/// A row of held masks, by owner and task.
fn mask(shares: &Shares, k: u32) -> Found
    ensures { result ≡ look_up (mask_rows (mask_at shares.now.masks)) k }
{
    let mut left = k;
    for owner in 0..OWNER_COUNT {
        match mask_of_owner(shares, owner, left) {
            Found::At(row) => return Found::At(row),
            Found::Past(past) => left = past,
        }
    }
    Found::Past(left)
}

/// The row of a power domain, if it is held.
fn hold_of(shares: &Shares, domain: u8, k: u32) -> Found
    ensures { result ≡ look_up (hold_row domain (held_by_all shares.now.holds (pos domain))) k }
{
    let domain = i32::from(domain);
    let n = shares.domain_holds(domain);
    if n == 0 {
        return Found::Past(k);
    }
    only(Row::Hold { domain, n }, k)
}

/// A row of held power domains.
fn hold(shares: &Shares, k: u32) -> Found
    ensures { result ≡ look_up (hold_rows (λ domain. held_by_all shares.now.holds (pos domain))) k }
{
    let mut left = k;
    for domain in 0..DOMAIN_COUNT {
        match hold_of(shares, domain, left) {
            Found::At(row) => return Found::At(row),
            Found::Past(past) => left = past,
        }
    }
    Found::Past(left)
}

/// A row of the work queue, from its front.
fn work(shares: &Shares, k: u32) -> Found
    ensures { result ≡ look_up (map work_row shares.now.work) k }
{
    match shares.queued(k) {
        None => Found::Past(k - shares.waiting()),
        Some(work) => Found::At(Row::Work {
            owner: work.owner,
            handler: work.handler,
            arg: work.arg,
        }),
    }
}

/// A row of what activities share: locks, masks, power domains, work.
pub fn share(shares: &Shares, k: u32) -> Found
    ensures { result ≡ look_up (share_rows shares.now) k }
{
    let k = match lock(shares, k) {
        Found::At(row) => return Found::At(row),
        Found::Past(past) => past,
    };
    let k = match mask(shares, k) {
        Found::At(row) => return Found::At(row),
        Found::Past(past) => past,
    };
    let k = match hold(shares, k) {
        Found::At(row) => return Found::At(row),
        Found::Past(past) => past,
    };
    work(shares, k)
}
