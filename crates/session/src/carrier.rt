ghost use Rattle.std.specs.Prelude.{◌≡◌, ◌≤◌};
ghost use Rattle.fabric.specs.Lanes.{shim_limit};
ghost use Rattle.session.specs.Carrier.{carrier_name, carrier_lanes};
ghost use Rattle.session.specs.Playing.{empty_fabric};

use frames::Frames;
use ring::Ring;
use sheet::FabricName;
use stage::Stage;

// How many bytes the frames of a sheet have.
pub const BUFFER_LEN: usize = 4096;

// The fabric that a sheet asks for.
#[derive(Drop)]
pub(crate) enum Carrier<'a> {
    Ring(Ring),
    Frames(Frames<'a>),
    Staged(Stage<Ring>),
}

impl<'a> Carrier<'a> {
    // The fabric of this name for so many shims. Frames lie in the buffer.
    pub(crate) fn new(
        name: FabricName,
        shims: usize,
        buffer: &'a mut [u8; BUFFER_LEN],
    ) -> Carrier<'a>
        requires { (1 ≤ shims) × (shims ≤ shim_limit) }
        ensures fabric { carrier_name result ≡ name }
        ensures lanes { carrier_lanes result ≡ empty_fabric name shims }
    {
        match name {
            FabricName::Ring => Carrier::Ring(Ring::new(shims)),
            FabricName::Frames => Carrier::Frames(Frames::new(buffer, shims)),
            FabricName::Staged => Carrier::Staged(Stage::new(Ring::new(shims))),
        }
    }
}
