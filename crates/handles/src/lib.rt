// Handles for chips: a chip's program holds one for its shim. Its type says whether the shim waits, and it cannot be let go without being handed back.
#![tactic(auto)]

mod handle;
mod ready;
mod waiting;

pub use handle::Handle;
pub use ready::Ready;
pub use waiting::Waiting;
