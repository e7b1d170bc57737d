use fabric::Word;

// A call on a board. Numbers stand here at full width: which of them it takes is for the board to say.
// So a strength is a number too: a call may carry one that is no strength, and the board refuses it.
#[derive(Clone, Copy)]
pub enum Call {
    Load {
        shim: u32,
        line: u32,
        strength: u8,
    },
    Store {
        shim: u32,
        line: u32,
        strength: u8,
        value: Word,
    },
    Fence {
        shim: u32,
        strength: u8,
    },
    Evict {
        shim: u32,
        line: u32,
    },
    Up {
        shim: u32,
    },
    Down {
        shim: u32,
    },
}
