// One call that makes a board and does on it what a list asks. Its contract has the rules and the common order of the run.
#![tactic(auto)]

mod bytes;
mod run;

pub use bytes::run_in_bytes;
pub use run::run_events;
