ghost use Rattle.std.specs.Prelude.{◌≡◌};
ghost use Rattle.gombultsei.specs.Numbers.{call_of, numbers_of, lane_told};

use rules::{Answer, Call, Outcome, Refusal};

// A call by numbers.
#[repr(C)]
#[derive(Clone, Copy)]
pub struct CallNumbers {
    // 1 to 6: load, store, fence, evict, up, down.
    pub kind: u8,
    pub strength: u8,
    pub shim: u32,
    pub line: u32,
    pub value: u32,
}

// What the board said, by numbers.
#[repr(C)]
#[derive(Clone, Copy)]
pub struct AnswerNumbers {
    // 1 to 6: done, waits, value, ended, handled, refused; 0 where there was no call.
    pub kind: u32,
    // The kind of the message that was handled, or the number of the refusal.
    pub number: u32,
    // The word that a load gave, or the lane that a refusal carries.
    pub carried: u64,
}

// A call, and the place for what the board said to it.
#[repr(C)]
#[derive(Clone, Copy)]
pub struct Exchange {
    pub call: CallNumbers,
    pub answer: AnswerNumbers,
}

// The call that has these numbers, if one has.
pub(crate) fn call_of(numbers: CallNumbers) -> Option<Call>
    ensures { result ≡ call_of numbers }
{
    let CallNumbers {
        kind,
        strength,
        shim,
        line,
        value,
    } = numbers;
    match kind {
        1 => Some(Call::Load {
            shim,
            line,
            strength,
        }),
        2 => Some(Call::Store {
            shim,
            line,
            strength,
            value,
        }),
        3 => Some(Call::Fence { shim, strength }),
        4 => Some(Call::Evict { shim, line }),
        5 => Some(Call::Up { shim }),
        6 => Some(Call::Down { shim }),
        _ => None,
    }
}

// The numbers of what the board said, if it was called.
pub(crate) fn numbers_of(said: Option<Outcome>) -> AnswerNumbers
    ensures { result ≡ numbers_of said }
{
    let (kind, number, carried) = match said {
        None => (0, 0, 0),
        Some(Ok(Answer::Done)) => (1, 0, 0),
        Some(Ok(Answer::Waits)) => (2, 0, 0),
        Some(Ok(Answer::Value(word))) => (3, 0, word.into()),
        Some(Ok(Answer::Ended)) => (4, 0, 0),
        Some(Ok(Answer::Handled(kind))) => (5, u8::from(kind), 0),
        Some(Err(refusal)) => (6, u8::from(refusal), lane_of(refusal)),
    };
    AnswerNumbers {
        kind,
        number: number.into(),
        carried,
    }
}

// The lane that a refusal carries, and 0 where it carries none.
fn lane_of(refusal: Refusal) -> u64
    ensures { result ≡ lane_told refusal }
{
    match refusal {
        Refusal::Fabric(fault) => fault.lane() as u64,
        Refusal::Foreign(lane) => lane as u64,
        _ => 0,
    }
}
