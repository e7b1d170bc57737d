ghost use Rattle.std.specs.Prelude.{◌≤◌, length};

use crate::deed::Deed;
use crate::names::Role;
use rules::{Answer, Event, Outcome};

// What was done, and what the board said to it.
#[derive(Clone, Copy)]
pub(crate) struct Entry {
    pub(crate) deed: Deed,
    pub(crate) outcome: Outcome,
}

// For how many deeds there is room.
const ROOM: usize = 64;

const BLANK: Entry = Entry {
    deed: Deed::Claim(Role::Panel),
    outcome: Ok(Answer::Done),
};

// All that was done, in its order. It needs no memory but its own: whoever holds a handle cannot leave where memory fails.
#[derive(Drop)]
pub(crate) struct Log {
    entries: [Entry; ROOM],
    deeds: usize,
}

impl Log {
    pub(crate) fn new() -> Log {
        Log {
            entries: [BLANK; ROOM],
            deeds: 0,
        }
    }

    pub(crate) fn keep(&mut self, deed: Deed, outcome: Outcome) {
        if self.deeds < ROOM {
            self.entries[self.deeds] = Entry { deed, outcome };
        }
        self.deeds = self.deeds.saturating_add(1);
    }

    // How many deeds there were, also where there was no room for all.
    pub(crate) fn deeds(&self) -> usize {
        self.deeds
    }

    pub(crate) fn entries(&self) -> &[Entry]
        ensures { length result.now ≤ ROOM }
    {
        &self.entries[..self.deeds.min(ROOM)]
    }

    // The same as a list asks for it, with no answers yet, and with what fills the rest of the room.
    pub(crate) fn events(&self) -> [Event; ROOM] {
        self.entries.map(|entry| Event {
            action: entry.deed.action(),
            outcome: None,
        })
    }
}
