//! Where a timer stands among timers by owner and id.
ghost use Rattle.std.specs.Prelude.{◌≡◌, ◌≤◌, false, is_ok, count_by};
ghost use Rattle.std.specs.List.{list_any};
ghost use Rattle.timer_table.specs.Order.{is_owner's, is_timer};
ghost use Rattle.timer_table.specs.Table.{IsAscending, is_astray, place_in, place_found};

use crate::rows::Rows;

/// How many come before the owner's timer with this id, by halves.
fn place_of(rows: &Rows, owner: u8, id: i32) -> usize
    requires { IsAscending rows.now }
    ensures { result ≡ place_in rows.now owner id }
{
    let mut low = 0;
    let mut high = rows.len();
    while low < high {
        let middle = low + (high - low) / 2;
        let Some(row) = rows.get(middle) else {
            return low;
        };
        if row.comes_before(owner, id) {
            low = middle + 1;
        } else {
            high = middle;
        }
    }
    low
}

/// Where the owner's timer with this id stands, or where it is to be put in.
pub fn find(rows: &Rows, owner: u8, id: i32) -> Result<usize, usize>
    requires { IsAscending rows.now }
    ensures place { place_found result ≡ place_in rows.now owner id }
    ensures there { is_ok result ≡ list_any (is_timer owner id) rows.now }
{
    let place = place_of(rows, owner, id);
    match rows.get(place) {
        Some(row) if row.is_timer(owner, id) => Ok(place),
        _ => Err(place),
    }
}

/// How many timers an owner has.
pub fn count_of(rows: &Rows, owner: u8) -> usize
    requires owner { owner ≤ 4 }
    requires ascending { IsAscending rows.now }
    requires in_range { list_any is_astray rows.now ≡ false }
    ensures { result ≡ count_by (is_owner's owner) rows.now }
{
    place_of(rows, owner + 1, 0) - place_of(rows, owner, 0)
}
