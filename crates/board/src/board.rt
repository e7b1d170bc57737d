ghost use Rattle.std.specs.Prelude.{◌≡◌, ◌≤◌, length};
ghost use Rattle.fabric.specs.Lanes.{shim_limit};
ghost use Rattle.rules.specs.Sizes.{line_limit};

use rules::{Size, State};

// A hub and its shims. Every call that sends or delivers is given the fabric that the board was made over. The two stay apart, since a hand may reach the fabric
// between calls, and a call refuses a fabric with other lanes.
//
// Each of these calls promises the same two things: `lender`, that the fabric still holds the buffers that it was lent, and `rule`, which says all that the call leaves.
// They stand at the calls, and not in a type: a type speaks of one value, and they tie what is after a call to what was before it.
#[derive(Drop)]
pub struct Board {
    pub(crate) size: Size,
    pub(crate) state: State,
    ghost few_shims: { size.shims ≤ shim_limit },
    ghost all_shims: { length state.shims ≡ shim_limit },
    ghost few_lines: { size.lines ≤ line_limit },
}
