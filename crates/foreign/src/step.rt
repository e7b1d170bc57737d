// What can be done to a board and its fabric, in short words.
use fabric::Message;
use rules::{Call, Kind, STAMP_LIMIT, Strength};

// The lanes of shim 1, whose messages the tests are about.
pub(crate) const UP: usize = 2;

pub(crate) const DOWN: usize = 3;

#[derive(Clone, Copy)]
pub(crate) enum Step {
    // A call on the board.
    Make(Call),
    // A hand puts a message on a lane, or takes the first one off.
    Put(usize, Message),
    Take(usize),
}

// A relaxed load.
pub(crate) fn load(shim: u32, line: u32) -> Step {
    Step::Make(Call::Load {
        shim,
        line,
        strength: u8::from(Strength::Relaxed),
    })
}

// A relaxed store.
pub(crate) fn store(shim: u32, line: u32, value: u32) -> Step {
    store_with(Strength::Relaxed, shim, line, value)
}

// A store that its shim waits for.
pub(crate) fn sc_store(shim: u32, line: u32, value: u32) -> Step {
    store_with(Strength::SeqCst, shim, line, value)
}

fn store_with(strength: Strength, shim: u32, line: u32, value: u32) -> Step {
    Step::Make(Call::Store {
        shim,
        line,
        strength: u8::from(strength),
        value,
    })
}

pub(crate) fn fence(shim: u32) -> Step {
    Step::Make(Call::Fence {
        shim,
        strength: u8::from(Strength::SeqCst),
    })
}

pub(crate) fn evict(shim: u32, line: u32) -> Step {
    Step::Make(Call::Evict { shim, line })
}

pub(crate) fn up(shim: u32) -> Step {
    Step::Make(Call::Up { shim })
}

pub(crate) fn down(shim: u32) -> Step {
    Step::Make(Call::Down { shim })
}

// A message of this kind on line 0 from shim 1, of stamp 1. A test names only the field that it is about.
pub(crate) fn message(kind: Kind) -> Message {
    Message {
        kind: u8::from(kind),
        line: 0,
        mark: 0,
        sender: 1,
        value: 77,
        stamp: 1,
    }
}

pub(crate) fn on_line(line: u8, kind: Kind) -> Message {
    Message {
        line,
        ..message(kind)
    }
}

pub(crate) fn with_mark(mark: u8, kind: Kind) -> Message {
    Message {
        mark,
        ..message(kind)
    }
}

pub(crate) fn from_shim(sender: u8, kind: Kind) -> Message {
    Message {
        sender,
        ..message(kind)
    }
}

pub(crate) fn of_stamp(stamp: u32, kind: Kind) -> Message {
    Message {
        stamp,
        ..message(kind)
    }
}

// An acknowledgement with this mark; one with this stamp as well.
pub(crate) fn ack(mark: u8) -> Message {
    with_mark(mark, Kind::WriteAck)
}

pub(crate) fn ack_of_stamp(stamp: u32, mark: u8) -> Message {
    Message { stamp, ..ack(mark) }
}

// Shim 1 comes to hold line 0, settled.
pub(crate) fn settled() -> [Step; 3] {
    [load(1, 0), up(1), down(1)]
}

// Shim 1 comes to hold line 0, settled, and to wait for a store of 5 to it.
pub(crate) fn settled_and_waiting() -> [Step; 4] {
    [load(1, 0), up(1), down(1), sc_store(1, 0, 5)]
}

// Shim 1 comes to hold line 0, settled at the last stamp there is: a hand answers in the place of the hub.
pub(crate) fn settled_at_the_limit() -> [Step; 4] {
    [
        load(1, 0),
        Step::Take(UP),
        Step::Put(DOWN, of_stamp(STAMP_LIMIT, Kind::ReadResponse)),
        down(1),
    ]
}
