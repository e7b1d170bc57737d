// The chips and the lines of the oven.
use fabric::Word;
use rules::Strength;

// The chips, in the order of their shims.
#[derive(Clone, Copy, PartialEq, Eq, Debug)]
pub(crate) enum Role {
    Panel = 0,
    Heater = 1,
    Probe = 2,
}

pub(crate) const SHIMS: u32 = 3;

impl Role {
    pub(crate) fn shim(self) -> u32 {
        self as u32
    }

    pub(crate) fn name(self) -> &'static str {
        match self {
            Role::Panel => "panel",
            Role::Heater => "heater",
            Role::Probe => "probe",
        }
    }
}

// The lines, in the order of the board.
#[derive(Clone, Copy, PartialEq, Eq, Debug)]
pub(crate) enum Line {
    FirstStep = 0,
    SecondStep = 1,
    ReadyWord = 2,
    Reading = 3,
}

pub(crate) const LINES: u32 = 4;

// The steps of the new cast, and what the ready word is once they stand in their lines. In the last cast all were zero.
pub(crate) const FIRST_STEP: Word = 150;

pub(crate) const SECOND_STEP: Word = 730;

pub(crate) const READY: Word = 1;

impl Line {
    pub(crate) fn number(self) -> u32 {
        self as u32
    }

    pub(crate) fn name(self) -> &'static str {
        match self {
            Line::FirstStep => "step 0",
            Line::SecondStep => "step 1",
            Line::ReadyWord => "the ready word",
            Line::Reading => "the reading",
        }
    }

    // The step of the new cast, where the line has one.
    pub(crate) fn step(self) -> Option<Word> {
        match self {
            Line::FirstStep => Some(FIRST_STEP),
            Line::SecondStep => Some(SECOND_STEP),
            Line::ReadyWord | Line::Reading => None,
        }
    }

    // The ready word is loaded and stored so that the steps keep their order around it.
    pub(crate) fn load_strength(self) -> u8 {
        u8::from(match self {
            Line::ReadyWord => Strength::Acquire,
            _ => Strength::Relaxed,
        })
    }

    pub(crate) fn store_strength(self) -> u8 {
        u8::from(match self {
            Line::ReadyWord => Strength::Release,
            _ => Strength::Relaxed,
        })
    }
}
