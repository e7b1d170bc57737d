// Whether a sheet is well formed, and if not, what is wrong where.
#![tactic(auto)]

mod checker;
mod printer;
mod verdict;

pub use checker::{check, line_number};
pub use printer::{put_verdict, report};
pub use verdict::{Flaw, Verdict};
