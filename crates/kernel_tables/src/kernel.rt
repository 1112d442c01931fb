//! The tables and the clock.
ghost use Rattle.std.specs.Prelude.{◌≡◌, [], true, IfOk, slice_get};
ghost use Rattle.claim_table.specs.ClaimRows.{is_share};
ghost use Rattle.kernel_tables.specs.Standing.{StandsFor};
ghost use Rattle.sd_base.specs.History.{History};
ghost use Rattle.kernel_tables.specs.TableRows.{tables_of};
ghost use Rattle.kernel_tables.specs.KernelRows.{kernel_rows};

use crate::row::{Found, Row};
use crate::rows::{block, claim, share, timer};
use claim_table::Claims;
use grant_table::Grants;
use sd_base::Memory;
use share_table::Shares;
use std::alloc::Global;
use timer_table::Timers;

/// The tables of the modelled kernel and its clock.
#[derive(Drop)]
pub struct Kernel {
    /// The blocks of memory that are granted to each owner.
    pub grants: Grants,
    /// Who holds which lines, ports, devices and parameters.
    pub claims: Claims,
    /// The live timers.
    pub timers: Timers,
    /// Locks, masks, power holds and queued work.
    pub shares: Shares,
    /// The clock.
    pub now: u32,
}

impl Kernel {
    /// Empty tables at clock 0, of whose lines each may have one holder; they stand for the empty history. All memory that they
    /// ever take is taken here.
    pub fn new(alloc: Global) -> Result<Kernel, Memory>
        ensures stands { IfOk result (λ kernel. StandsFor kernel []) }
        ensures share { IfOk result (λ kernel. kernel.claims.share ≡ 1) }
    {
        Kernel::with_share(alloc, 1)
    }

    /// The same, of whose lines each may have as many holders as the share, which is 1 or 4.
    pub fn with_share(alloc: Global, share: u8) -> Result<Kernel, Memory>
        requires { is_share share ≡ true }
        ensures stands { IfOk result (λ kernel. StandsFor kernel []) }
        ensures share { IfOk result (λ kernel. kernel.claims.share ≡ share) }
    {
        Ok(Kernel {
            grants: Grants::new(alloc)?,
            claims: Claims::with_share(alloc, share)?,
            timers: Timers::new(alloc)?,
            shares: Shares::new(alloc)?,
            now: 0,
        })
    }

    /// The k-th row of the tables, counted from 0, or None past the last: blocks by owner and base, lines, ports and devices by
    /// number, of each parameter the value that was set last, timers by owner and id, locks, masks by owner and task, power
    /// domains that are held, work from the front of the queue, and the clock.
    pub fn row(&self, k: u32) -> Option<Row>
        ensures value { result ≡ slice_get (kernel_rows self.entry.now) k }
        ensures reads { (h : History) → StandsFor self.entry.now h → result ≡ slice_get (tables_of h) k }
    {
        let k = match block(&self.grants, k) {
            Found::At(row) => return Some(row),
            Found::Past(past) => past,
        };
        let k = match claim(&self.claims, k) {
            Found::At(row) => return Some(row),
            Found::Past(past) => past,
        };
        let k = match timer(&self.timers, k) {
            Found::At(row) => return Some(row),
            Found::Past(past) => past,
        };
        let k = match share(&self.shares, k) {
            Found::At(row) => return Some(row),
            Found::Past(past) => past,
        };
        if k == 0 {
            return Some(Row::Clock { now: self.now });
        }
        None
    }
}
