use crate::names::{Line, Role};
use fabric::Word;
use rules::{Action, Call};
use std::fmt;

// What is done on the board.
#[derive(Clone, Copy)]
pub(crate) enum Deed {
    Claim(Role),
    Load(Role, Line),
    Store(Role, Line, Word),
    Evict(Role, Line),
    // The hub performs a chip's next message.
    Up(Role),
    // A chip that does not wait is handed its next message.
    Down(Role),
    // One that waits turns, by its handle.
    Turn(Role),
    HandBack(Role),
}

impl Deed {
    // The same as a list asks for it. A turn is a down at a shim that waits.
    pub(crate) fn action(self) -> Action {
        match self {
            Deed::Claim(role) => Action::Claim { shim: role.shim() },
            Deed::HandBack(role) => Action::HandBack { shim: role.shim() },
            Deed::Load(role, line) => Action::Call(Call::Load {
                shim: role.shim(),
                line: line.number(),
                strength: line.load_strength(),
            }),
            Deed::Store(role, line, value) => Action::Call(Call::Store {
                shim: role.shim(),
                line: line.number(),
                strength: line.store_strength(),
                value,
            }),
            Deed::Evict(role, line) => Action::Call(Call::Evict {
                shim: role.shim(),
                line: line.number(),
            }),
            Deed::Up(role) => Action::Call(Call::Up { shim: role.shim() }),
            Deed::Down(role) | Deed::Turn(role) => Action::Call(Call::Down { shim: role.shim() }),
        }
    }
}

impl fmt::Display for Deed {
    fn fmt<W: fmt::Write>(&self, f: &mut fmt::Formatter<W>) -> fmt::Result {
        match *self {
            Deed::Claim(role) => write!(f, "{}: claims its shim", role.name()),
            Deed::Load(role, line) => write!(f, "{}: loads {}", role.name(), line.name()),
            Deed::Store(role, line, value) => {
                write!(f, "{}: stores {value} to {}", role.name(), line.name())
            }
            Deed::Evict(role, line) => write!(f, "{}: throws {} out", role.name(), line.name()),
            Deed::Up(role) => write!(f, "hub: performs the {}'s message", role.name()),
            Deed::Down(role) => write!(f, "{}: is handed its message", role.name()),
            Deed::Turn(role) => write!(f, "{}: turns", role.name()),
            Deed::HandBack(role) => write!(f, "{}: hands its shim back", role.name()),
        }
    }
}
