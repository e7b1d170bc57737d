// The board over a ring, for programs in C and Rust: one call that runs a list of calls. include/gombultsei.h declares it.
#![tactic(auto)]

mod exchange;
mod run;

pub use exchange::{AnswerNumbers, CallNumbers, Exchange};
pub use run::gombultsei_run;
