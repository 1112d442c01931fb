//! What is done to timers by owner and id: one is put in, one is taken out.
ghost use Rattle.std.specs.Prelude.{◌≡◌, ◌≤◌, OnOk, OnErr};
ghost use Rattle.std.specs.List.{list_any};
ghost use Rattle.timer_table.specs.Order.{is_timer, next_of};
ghost use Rattle.timer_table.specs.Table.{IsTable, refusal_of, set_refusal, with_timer, without_timer};

use crate::Fired;
use crate::places::{count_of, find};
use crate::refusal::TimerRefusal;
use crate::rows::Rows;
use sd_base::limits::{TIMER_NUMBERS, TIMERS};
use sd_base::number_below;

/// Puts a timer in its place, in the stead of the one of its owner and id.
pub fn put(rows: &mut Rows, row: Fired) -> Result<(), TimerRefusal>
    requires table { IsTable rows.old }
    requires owner { row.owner ≤ 4 }
    ensures answer { refusal_of result ≡ set_refusal rows.old row.owner row.id }
    ensures set { OnOk result (rows.new ≡ with_timer row rows.old) }
    ensures err { OnErr result (rows.new ≡ rows.old) }
    ensures table { IsTable rows.new }
{
    if number_below(row.id, TIMER_NUMBERS).is_none() {
        return Err(TimerRefusal::Bad);
    }
    match find(rows, row.owner, row.id) {
        Ok(place) => {
            rows.replace(place, row);
            Ok(())
        }
        Err(place) => {
            if count_of(rows, row.owner) >= TIMERS {
                return Err(TimerRefusal::Full);
            }
            rows.insert(place, row);
            Ok(())
        }
    }
}

/// Takes the owner's timer with this id out, and says whether there was one.
pub fn take_out(rows: &mut Rows, owner: u8, id: i32) -> bool
    requires { IsTable rows.old }
    ensures there { result ≡ list_any (is_timer owner id) rows.old }
    ensures gone { rows.new ≡ without_timer owner id rows.old }
    ensures table { IsTable rows.new }
{
    let Ok(place) = find(rows, owner, id) else {
        return false;
    };
    rows.remove(place);
    true
}

/// The timer to fire next of those that are due.
pub fn next(rows: &Rows, now: u32) -> Option<Fired>
    ensures { result ≡ next_of now rows.now }
{
    let mut next: Option<Fired> = None;
    for place in 0..rows.len() {
        let Some(row) = rows.get(place) else {
            return next;
        };
        next = row.earlier_if_due(now, next);
    }
    next
}
