// Calls as a list asks for them, in short words.
ghost use Rattle.std.specs.Prelude.{◌≡◌};
ghost use Rattle.rules.specs.declared.call.Call.TheVariants.{Load, Store, Fence, Evict, Up, Down};
ghost use Rattle.law_cases.specs.Sheets.{asked};

use fabric::Word;
use rules::{Action, Call, Event};

// The strengths by number, as a call carries them.
const RLX: u8 = 0;

const SC: u8 = 3;

fn event(call: Call) -> Event
    ensures { result ≡ asked call }
{
    Event {
        action: Action::Call(call),
        outcome: None,
    }
}

pub(crate) fn load(shim: u32, line: u32) -> Event
    ensures { result ≡ asked (Load shim line 0) }
{
    event(Call::Load {
        shim,
        line,
        strength: RLX,
    })
}

pub(crate) fn store(shim: u32, line: u32, value: Word) -> Event
    ensures { result ≡ asked (Store shim line 0 value) }
{
    event(Call::Store {
        shim,
        line,
        strength: RLX,
        value,
    })
}

pub(crate) fn fence(shim: u32) -> Event
    ensures { result ≡ asked (Fence shim 3) }
{
    event(Call::Fence { shim, strength: SC })
}

pub(crate) fn evict(shim: u32, line: u32) -> Event
    ensures { result ≡ asked (Evict shim line) }
{
    event(Call::Evict { shim, line })
}

pub(crate) fn up(shim: u32) -> Event
    ensures { result ≡ asked (Up shim) }
{
    event(Call::Up { shim })
}

pub(crate) fn down(shim: u32) -> Event
    ensures { result ≡ asked (Down shim) }
{
    event(Call::Down { shim })
}
