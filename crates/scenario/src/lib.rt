//! Scenario texts of both versions: the events of a run and the answers of its devices, read line by line.
#![tactic(auto)]

mod event;
mod forms;
mod keywords;
mod laws;
mod lines;
mod numbers;
mod plan;
mod refusal;
mod stages;
mod values;
mod words;

pub use event::{Event, KernelEvent};
pub use laws::lines_read_by_their_rules;
pub use plan::{Scenario, read_scenario};
pub use refusal::{ScenarioLimit, ScenarioRefusal};
