//! What events change in the run itself: waiting lines, the bound, and how the drivers stand.
ghost use Rattle.std.specs.Prelude.{◌≡◌, ◌+◌, ◌<◌, ◌≤◌, MatchOption, false, true, pos, set};
ghost use Rattle.world_core.specs.WorldState.{is_over, is_spent, driver_of, with_driver, first_run};
ghost use Rattle.world_core.specs.Failing.{driver_fails, goes_astray};
ghost use Rattle.world_core.specs.Calling.{waits_for_lock};
ghost use Rattle.world_core.specs.Stepping.{stopped, one_taken};
ghost use Rattle.world_core.specs.Delivering.{with_waiting, is_waiting, some_waits, least_waiting};
ghost use Rattle.world_core.specs.Loading.{driver_loaded, driver_restarted, driver_unloaded};
ghost use Rattle.world_core.specs.Tasks.{not_blocked};
ghost use Rattle.world_core.specs.Restarting.{restarts_left, least_due, one_restart_used};

use world_core::{DriverState, RunState, Standing};

/// A driver that was never loaded.
const NOT_LOADED: DriverState = DriverState {
    standing: Standing::Absent,
    task: 0,
    restarts: 0,
    is_due: false,
};

/// The state before a run with this bound: every driver is absent, and no line waits.
pub fn first_run(bound: u32) -> RunState
    ensures { result ≡ first_run bound }
{
    RunState {
        drivers: [NOT_LOADED; 4],
        waiting: [false; 64],
        left: bound,
        is_blocked: false,
        is_stopped: false,
        is_astray: false,
        has_failed: false,
    }
}

// ---- the bound

/// Whether nothing more takes place: a step was needed when none was left, or one had no meaning.
pub fn is_over(run: &RunState) -> bool
    ensures { result ≡ is_over run.now }
{
    run.is_stopped || run.is_astray
}

/// Whether no step is left.
pub fn is_spent(run: &RunState) -> bool
    ensures { result ≡ is_spent run.now }
{
    run.left == 0
}

/// A step was needed and none is left.
pub fn stop(run: &mut RunState)
    ensures { run.new ≡ stopped run.old }
{
    run.is_stopped = true;
}

/// Takes a step.
pub fn take_one(run: &mut RunState)
    ensures { run.new ≡ one_taken run.old }
{
    run.left = run.left.saturating_sub(1);
}

/// A step had no meaning.
pub fn go_astray(run: &mut RunState)
    ensures { run.new ≡ goes_astray run.old }
{
    run.is_astray = true;
    run.has_failed = true;
}

// ---- locks

/// The task that runs waits for a lock.
pub fn block(run: &mut RunState)
    ensures { run.new ≡ waits_for_lock run.old }
{
    run.is_blocked = true;
}

/// The task that is to run has met no lock yet.
pub fn unblock(run: &mut RunState)
    ensures { run.new ≡ not_blocked run.old }
{
    run.is_blocked = false;
}

// ---- waiting lines

/// Puts what a line does at its place, if there is such a place.
fn put_waiting(waiting: &mut [bool], place: usize, waits: bool)
    ensures { waiting.new ≡ set waiting.old place waits }
{
    if place < waiting.len() {
        waiting[place] = waits;
    }
}

/// The line waits, or ceases to.
pub fn set_waiting(run: &mut RunState, line: u8, waits: bool)
    ensures { run.new ≡ with_waiting line waits run.old }
{
    put_waiting(&mut run.waiting, usize::from(line), waits);
}

/// Whether the line waits.
pub fn is_waiting(run: &RunState, line: u8) -> bool
    ensures { result ≡ is_waiting run.now line }
{
    match run.waiting.get(usize::from(line)) {
        Some(waits) => *waits,
        None => false,
    }
}

/// The least line that waits, if one does.
pub fn least_waiting(run: &RunState) -> Option<u8>
    ensures { MatchOption result (some_waits run.now ≡ false)
        (λ line. (some_waits run.now ≡ true) × (line ≡ least_waiting run.now) × (line < 64)) }
{
    for line in 0..64u8 {
        if run.waiting[usize::from(line)] {
            return Some(line);
        }
    }
    None
}

// ---- drivers

/// How a driver stands; whoever is no driver was never loaded.
pub fn driver(run: &RunState, owner: u8) -> DriverState
    ensures { result ≡ driver_of run.now owner }
{
    if owner == 0 {
        return NOT_LOADED;
    }
    match run.drivers.get(usize::from(owner) - 1) {
        Some(driver) => *driver,
        None => NOT_LOADED,
    }
}

/// Puts how a driver stands at its place, if there is such a place.
fn put_driver(drivers: &mut [DriverState], place: usize, driver: DriverState)
    ensures { drivers.new ≡ set drivers.old place driver }
{
    if place < drivers.len() {
        drivers[place] = driver;
    }
}

/// The driver stands so.
pub fn set_driver(run: &mut RunState, owner: u8, driver: DriverState)
    ensures { run.new ≡ with_driver owner driver run.old }
{
    if owner == 0 {
        return;
    }
    put_driver(&mut run.drivers, usize::from(owner) - 1, driver);
}

/// A step of the driver has failed: it is due to be started anew exactly where it has restarts left.
pub fn fail(run: &mut RunState, owner: u8)
    ensures { run.new ≡ driver_fails owner run.old }
{
    let mut state = driver(run, owner);
    state.standing = Standing::Failed;
    state.is_due = state.restarts > 0;
    set_driver(run, owner, state);
    run.has_failed = true;
}

/// The driver is loaded on this task, with so many restarts.
pub fn load(run: &mut RunState, owner: u8, task: u8, restarts: u8)
    ensures { run.new ≡ driver_loaded owner task restarts run.old }
{
    let loaded = DriverState {
        standing: Standing::Loaded,
        task,
        restarts,
        is_due: false,
    };
    set_driver(run, owner, loaded);
}

/// A failed driver is loaded anew: its load task and its restarts stay.
pub fn restart(run: &mut RunState, owner: u8)
    ensures { run.new ≡ driver_restarted owner run.old }
{
    let mut state = driver(run, owner);
    state.standing = Standing::Loaded;
    set_driver(run, owner, state);
}

/// The driver leaves.
pub fn unload(run: &mut RunState, owner: u8)
    ensures { run.new ≡ driver_unloaded owner run.old }
{
    let mut state = driver(run, owner);
    state.standing = Standing::Absent;
    state.restarts = 0;
    state.is_due = false;
    set_driver(run, owner, state);
}

/// The driver is no longer due, and has one restart less.
pub fn use_restart(run: &mut RunState, owner: u8)
    ensures { run.new ≡ one_restart_used owner run.old }
{
    let mut state = driver(run, owner);
    state.restarts = state.restarts.saturating_sub(1);
    state.is_due = false;
    set_driver(run, owner, state);
}
