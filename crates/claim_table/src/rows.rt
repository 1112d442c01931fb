//! Claims of one kind in the order of their numbers, in storage that is taken when they are made.
ghost use Rattle.std.specs.Prelude.{◌≡◌, ◌<◌, ◌≤◌, [], List, length, IfOk, slice_get};
ghost use Rattle.std.specs.List.{list_any, filter, count_by};
ghost use Rattle.sd_base.specs.Selection.{find_last};
ghost use Rattle.claim_table.specs.Ordered.{begins_with, has_number, is_owned, is_claim, is_not_claim, insert_claim, last_of_each};
ghost use Rattle.claim_table.specs.ClaimCalls.{is_taken};
ghost use Rattle.claim_table.specs.ClaimRows.{range_meets, is_range_claim, is_not_range_claim, covers};

use crate::Claim;
use sd_base::Memory;
use sd_base::limits::LINES;
use std::alloc::Global;
use std::marker::Model;

/// The greatest share: how many owners may hold one line.
const MOST_HOLDERS: usize = 4;

/// The claims of one kind that can stand beside each other: 4 of each of 64 lines, and 160 of ports, devices or parameters.
const ROOM: usize = LINES as usize * MOST_HOLDERS;

/// Claims in the order of their numbers, those of one number in the order of their making.
#[derive(Drop)]
pub struct Rows<D> {
    claims: Vec<Claim<D>>,
}

impl<D> Model for Rows<D> {
    ghost use Rattle.std.specs.Prelude.{List, ◌≤◌, vec_capacity};
    ghost use Rattle.claim_table.specs.declared.claim.Claim.{Claim};
    ghost use Rattle.sd_base.specs.Selection.{find_last};
    ghost use Rattle.claim_table.specs.Ordered.{IsOrdered};

    ghost Value = { List (Claim D) };

    ghost view = { λ a. a.claims.items };

    ghost invariant = { λ a. (256 ≤ vec_capacity a.claims) × IsOrdered a.claims.items };
}

impl<D: Copy> Rows<D> {
    /// No claims, with room for all that can ever stand here.
    pub fn new(alloc: Global) -> Result<Rows<D>, Memory>
        ensures { IfOk result (λ rows. rows ≡ []) }
    {
        let claims = Vec::with_capacity(alloc, ROOM)?;
        Ok(Rows { claims })
    }

    /// The claims, in order.
    pub fn as_slice(&self) -> &[Claim<D>]
        ensures { result.now ≡ self.now }
    {
        self.claims.as_slice()
    }

    /// Puts a claim behind all that have its number or a smaller one.
    pub fn insert(&mut self, claim: Claim<D>)
        requires { length self.old < 256 }
        ensures { self.new ≡ insert_claim claim self.old }
    {
        let number = claim.number;
        let place = self
            .claims
            .as_slice()
            .partition_point(|c| c.number <= number);
        let _ = self.claims.insert(place, claim);
    }

    /// Holds, in place of what it held, of each number among `others` the claim that was made last.
    pub fn take_latest(&mut self, others: &Rows<D>)
        requires { length others.now ≤ 256 }
        ensures { self.new ≡ last_of_each others.now }
    {
        self.claims.clear();
        let claims = others.claims.as_slice();
        for place in 0..claims.len() {
            let claim = claims[place];
            if !begins_with(&claims[place + 1..], claim.number) {
                self.claims.push_reserved(claim);
            }
        }
    }

    /// Takes away this owner's claims of this number.
    pub fn drop_claim(&mut self, owner: u8, number: u16)
        ensures { self.new ≡ filter (is_not_claim owner number) self.old }
    {
        self.claims
            .retain(|c| !(c.owner == owner && c.number == number));
    }
}

/// Whether the first claim has this number.
fn begins_with<D>(claims: &[Claim<D>], number: u16) -> bool
    ensures { result ≡ begins_with number claims.now }
{
    match claims.first() {
        Some(claim) => claim.number == number,
        None => false,
    }
}

/// How many claims have this number.
fn holders(claims: &[Claim<u32>], number: u16) -> usize
    ensures { result ≡ count_by (has_number number) claims.now }
{
    claims.iter().filter(|c| c.number == number).count()
}

/// Whether the owner holds this line, or as many owners as the share do.
pub fn is_taken(share: u8, owner: u8, line: u16, claims: &[Claim<u32>]) -> bool
    ensures { result ≡ is_taken share owner line claims.now }
{
    has_claim(claims, owner, line) || holders(claims, line) >= usize::from(share)
}

/// Whether a claim has this number.
pub fn has_number<D>(claims: &[Claim<D>], number: u16) -> bool
    ensures { result ≡ list_any (has_number number) claims.now }
{
    claims.iter().any(|c| c.number == number)
}

/// Whether this owner has a claim of this number.
pub fn has_claim<D>(claims: &[Claim<D>], owner: u8, number: u16) -> bool
    ensures { result ≡ list_any (is_claim owner number) claims.now }
{
    claims
        .iter()
        .any(|c| c.owner == owner && c.number == number)
}

/// How many claims an owner has.
pub fn count_of<D>(claims: &[Claim<D>], owner: u8) -> usize
    ensures { result ≡ count_by (is_owned owner) claims.now }
{
    claims.iter().filter(|c| c.owner == owner).count()
}

/// Whether a range of ports has one of the `n` from `base`.
pub fn meets_range(claims: &[Claim<u32>], base: u16, n: u32) -> bool
    ensures { result ≡ list_any (range_meets base n) claims.now }
{
    let base = u64::from(base);
    let end = base + u64::from(n);
    claims.iter().any(|c| u64::from(c.number) < end
        && base < u64::from(c.number) + u64::from(c.detail))
}

/// Whether this owner has claimed exactly these ports.
pub fn has_range(claims: &[Claim<u32>], owner: u8, base: u16, n: u32) -> bool
    ensures { result ≡ list_any (is_range_claim owner base n) claims.now }
{
    claims
        .iter()
        .any(|c| c.owner == owner && c.number == base && c.detail == n)
}

/// Whether a range of this owner has this port.
pub fn has_port(claims: &[Claim<u32>], owner: u8, port: i32) -> bool
    ensures { result ≡ list_any (covers owner port) claims.now }
{
    let port = i64::from(port);
    claims.iter().any(|c| {
        c.owner == owner
            && port >= i64::from(c.number)
            && port < i64::from(c.number) + i64::from(c.detail)
    })
}

/// The claim on this number that was made last.
pub fn latest<D: Copy>(claims: &[Claim<D>], number: u16) -> Option<Claim<D>>
    ensures { result ≡ find_last (has_number number) claims.now }
{
    let mut end = claims.len();
    while end > 0 {
        end -= 1;
        let claim = claims[end];
        if claim.number == number {
            return Some(claim);
        }
    }
    None
}

/// The k-th claim on this number, counted from 0.
pub fn nth_of<D: Copy>(claims: &[Claim<D>], number: u16, k: u32) -> Option<Claim<D>>
    ensures { result ≡ slice_get (filter (has_number number) claims.now) k }
{
    let mut left = k;
    for claim in claims {
        if claim.number == number {
            if left == 0 {
                return Some(*claim);
            }
            left -= 1;
        }
    }
    None
}

impl Rows<u32> {
    /// Takes away this owner's claim of exactly these ports.
    pub fn drop_range(&mut self, owner: u8, base: u16, n: u32)
        ensures { self.new ≡ filter (is_not_range_claim owner base n) self.old }
    {
        self.claims.retain(|c| !(c.owner == owner && c.number == base && c.detail == n));
    }
}
