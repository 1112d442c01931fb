//! The laws of the world, each the contract of a function that does nothing.
ghost use Rattle.world_core.specs.Laws.{FailuresAreUndone, LoadsBeginFromTheImage, HistoriesAreLawful, FailuresAreTold, WorldsKeepTheirShape, NothingFollowsTheBound, TheBoundStopsHandlers, RunsAreCounted, MasksHoldInterruptsOff, RaisedLinesWait, DeliveryIsComplete, WaitingLinesAreNeverLost};

/// After a step of a driver has failed, the kernel's history is the old one without that driver's entries, its memory is all 0, its
/// activities are gone, and what the others have is untouched. What is printed is the failure, what the driver held, from the newest, and
/// the tables of what is left.
pub fn failures_are_undone()
    ensures { FailuresAreUndone }
{}

/// A load and a restart begin from the load state: the memory is that of the image and holds nothing of before, the history has of the driver
/// the grants of the image's blocks alone, in order, and `init` stands at its beginning.
pub fn loads_begin_from_the_image()
    ensures { LoadsBeginFromTheImage }
{}

/// In every world of a run each entry of the history was allowed by the entries before it.
pub fn histories_are_lawful()
    ensures { HistoriesAreLawful }
{}

/// A driver has failed in a run, or a step had no meaning, exactly where a line that says so stands among what was printed.
pub fn failures_are_told()
    ensures { FailuresAreTold }
{}

/// Nine tasks, a memory for each driver, 64 lines: no event changes how many there are, and none gives a step back.
pub fn worlds_keep_their_shape()
    ensures { WorldsKeepTheirShape }
{}

/// Once a run is over, no event of its scenario does anything.
pub fn nothing_follows_the_bound()
    ensures { NothingFollowsTheBound }
{}

/// A handler that has to go on where no step is left stops the run, and nothing else happens.
pub fn the_bound_stops_handlers()
    ensures { TheBoundStopsHandlers }
{}

/// A task does not run past N steps: where no line waits, whose handlers would take steps too, `run T N` takes at most N.
pub fn runs_are_counted()
    ensures { RunsAreCounted }
{}

/// While an activity holds its mask, no interrupt is delivered.
pub fn masks_hold_interrupts_off()
    ensures { MasksHoldInterruptsOff }
{}

/// A line that is raised under a mask waits, which is printed, and nothing else happens.
pub fn raised_lines_wait()
    ensures { RaisedLinesWait }
{}

/// After a delivery no line waits that could be served.
pub fn delivery_is_complete()
    ensures { DeliveryIsComplete }
{}

/// A line that waits is never lost: through every scenario it waits until it is served, which is printed, unless the run is over.
pub fn waiting_lines_are_never_lost()
    ensures { WaitingLinesAreNeverLost }
{}
