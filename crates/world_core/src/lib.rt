//! The world in which drivers run: what it has, and what each event of a scenario does in it.
//!
//! The definitions stand in `specs`: a world is a plain state (`WorldState`), and an event is a script of printing and of changes over it
//! (`Script`), one file for each subject, each definition headed by the line of a scenario that it states. `Events` puts them together.
#![tactic(auto)]

mod laws;
mod run_state;

pub use laws::{
    delivery_is_complete, failures_are_told, failures_are_undone, histories_are_lawful,
    loads_begin_from_the_image, masks_hold_interrupts_off, nothing_follows_the_bound,
    raised_lines_wait, runs_are_counted, the_bound_stops_handlers, waiting_lines_are_never_lost,
    worlds_keep_their_shape,
};
pub use run_state::{DriverState, RunState, Standing};
