//! A live timer as it is kept and as it fires, and the two orders of timers.
ghost use Rattle.std.specs.Prelude.{◌≡◌};
ghost use Rattle.timer_table.specs.Order.{is_timer, comes_before, fires_before, earlier_if_due};

/// A live timer, which fires once its time has come.
#[derive(Clone, Copy, PartialEq, Eq, Debug)]
pub struct Fired {
    /// Whose it is.
    pub owner: u8,
    /// Its number among the owner's timers, from 0 to 255.
    pub id: i32,
    /// The moment of the clock at which it fires.
    pub due: u32,
    /// The function that is called then.
    pub handler: u32,
    /// What the function is given.
    pub arg: i32,
}

impl Fired {
    /// Whether it is the owner's timer with this id.
    pub(crate) fn is_timer(&self, owner: u8, id: i32) -> bool
        ensures { result ≡ is_timer owner id self.now }
    {
        self.owner == owner && self.id == id
    }

    /// Whether it stands before the owner's timer with this id, by owner and then by id.
    pub(crate) fn comes_before(&self, owner: u8, id: i32) -> bool
        ensures { result ≡ comes_before owner id self.now }
    {
        self.owner < owner || (self.owner == owner && self.id < id)
    }

    /// Whether it fires before the other, by due, then owner, then id.
    pub(crate) fn fires_before(&self, other: &Fired) -> bool
        ensures { result ≡ fires_before self.now other.now }
    {
        self.due < other.due || (self.due == other.due && self.comes_before(other.owner, other.id))
    }

    /// Of it, where it is due by `now`, and perhaps another, the one that fires first.
    pub(crate) fn earlier_if_due(&self, now: u32, other: Option<Fired>) -> Option<Fired>
        ensures { result ≡ earlier_if_due now self.now other }
    {
        if now < self.due {
            return other;
        }
        match other {
            Some(first) if !self.fires_before(&first) => other,
            _ => Some(*self),
        }
    }
}
