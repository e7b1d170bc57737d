// Calls on a board, in short words.
use crate::ask::{RLX, SC};
use fabric::Word;
use rules::Call;

pub(crate) fn load(shim: u32, line: u32) -> Call {
    Call::Load {
        shim,
        line,
        strength: RLX,
    }
}

pub(crate) fn store(shim: u32, line: u32, value: Word) -> Call {
    Call::Store {
        shim,
        line,
        strength: RLX,
        value,
    }
}

// A store that its shim waits for.
pub(crate) fn sc_store(shim: u32, line: u32, value: Word) -> Call {
    Call::Store {
        shim,
        line,
        strength: SC,
        value,
    }
}

pub(crate) fn fence(shim: u32) -> Call {
    Call::Fence { shim, strength: SC }
}

pub(crate) fn evict(shim: u32, line: u32) -> Call {
    Call::Evict { shim, line }
}

pub(crate) fn up(shim: u32) -> Call {
    Call::Up { shim }
}

pub(crate) fn down(shim: u32) -> Call {
    Call::Down { shim }
}
