ghost use Rattle.std.specs.Prelude.{◌≡◌, ◌*◌, ◌^◌, ◌<◌};
ghost use Rattle.rules.specs.State.{up_lane, down_lane};

use fabric::LANES_PER_SHIM;

// How many lanes so many shims have.
pub(crate) fn lane_count(shims: usize) -> usize
    requires { shims < 2 ^ 32 }
    ensures { result ≡ 2 * shims }
{
    LANES_PER_SHIM * shims
}

// The lane that a shim sends on.
pub(crate) fn up_lane(shim: usize) -> usize
    requires { shim < 2 ^ 32 }
    ensures { result ≡ up_lane shim }
{
    LANES_PER_SHIM * shim
}

// The lane that a shim receives on.
pub(crate) fn down_lane(shim: usize) -> usize
    requires { shim < 2 ^ 32 }
    ensures { result ≡ down_lane shim }
{
    LANES_PER_SHIM * shim + 1
}
