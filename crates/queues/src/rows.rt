ghost use Rattle.std.specs.Prelude.{◌≡◌};
ghost use Rattle.queues.specs.Rows.{new_rows};

use fabric::MAX_LANES;

// For one lane, the first slot in use and how many messages wait.
#[derive(Clone, Copy)]
pub struct Span {
    pub first: usize,
    pub waiting: usize,
}

// Lanes of `capacity` slots each, in a row: lane k has the slots from capacity * k on, and after its last comes its first.
#[derive(Drop)]
pub struct Rows {
    pub lanes: usize,
    pub capacity: usize,
    pub spans: [Span; MAX_LANES],
}

impl Rows {
    // Lanes with no message, that begin with their slot 0.
    pub fn new(lanes: usize, capacity: usize) -> Rows
        ensures { result ≡ new_rows lanes capacity }
    {
        let unused = Span {
            first: 0,
            waiting: 0,
        };
        Rows {
            lanes,
            capacity,
            spans: [unused; MAX_LANES],
        }
    }
}
