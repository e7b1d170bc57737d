ghost use Rattle.std.specs.Prelude.{◌≡◌};
ghost use Rattle.frames.specs.Check.{check_answer, fault_number, rows_for};

use fabric::{FRAME_LEN, LANES_PER_SHIM, MAX_CAPACITY, MAX_SHIMS};
use queues::Rows;

// A buffer cannot serve: no shims or too many, or too few bytes for one message a lane.
#[derive(Clone, Copy, PartialEq, Eq, Debug)]
pub struct FramesFault;

// The number of the refusal.
impl From<FramesFault> for u8 {
    ghost from_gives = { λ fault number. number ≡ fault_number fault };

    fn from(_fault: FramesFault) -> u8 {
        24
    }
}

// How many messages each lane can hold where a buffer of `len` bytes serves `shims` shims.
pub fn check_buffer(len: usize, shims: usize) -> Result<usize, FramesFault>
    ensures { result ≡ check_answer len shims }
{
    if !(1..=MAX_SHIMS).contains(&shims) {
        return Err(FramesFault);
    }
    let capacity = (len / (LANES_PER_SHIM * FRAME_LEN * shims)).min(MAX_CAPACITY);
    if capacity == 0 {
        return Err(FramesFault);
    }
    Ok(capacity)
}

// The lanes made in a buffer of `len` bytes: none where the check refuses.
pub(crate) fn made_rows(len: usize, shims: usize) -> Rows
    ensures { result ≡ rows_for len shims }
{
    match check_buffer(len, shims) {
        Ok(capacity) => Rows::new(LANES_PER_SHIM * shims, capacity),
        Err(_) => Rows::new(0, 0),
    }
}
