ghost use Rattle.std.specs.Prelude.{◌≡◌};
ghost use Rattle.rules.specs.Kinds.{kind_number};
ghost use Rattle.rules.specs.Strengths.{strength_number};
ghost use Rattle.rules.specs.Requests.{load_message, store_message, fence_message, drop_message};

use crate::kind::Kind;
use crate::strength::Strength;
use fabric::{Message, Word};

// A message of a shim to the hub, with no value.
fn request(kind: Kind, shim: u8, line: u8, mark: u8) -> Message
    ensures { result ≡ record { kind = kind_number kind; line = line; mark = mark; sender = shim; value = 0; stamp = 0 } }
{
    Message {
        kind: kind.into(),
        line,
        mark,
        sender: shim,
        value: 0,
        stamp: 0,
    }
}

// What a load of a line that its shim does not hold sends up.
pub fn load_request(shim: u8, line: u8, strength: Strength) -> Message
    ensures { result ≡ load_message shim line (strength_number strength) }
{
    request(Kind::ReadRequest, shim, line, strength.mark(false))
}

// What a store sends up. On a line that its shim does not hold it asks to be synchronised.
pub fn store_request(shim: u8, line: u8, strength: Strength, held: bool, value: Word) -> Message
    ensures { result ≡ store_message shim line (strength_number strength) held value }
{
    Message {
        value,
        ..request(Kind::Write, shim, line, strength.mark(!held))
    }
}

// What a fence sends up.
pub fn fence_request(shim: u8) -> Message
    ensures { result ≡ fence_message shim }
{
    request(Kind::FenceRequest, shim, 0, Strength::SeqCst.mark(false))
}

// What an eviction sends up.
pub fn drop_request(shim: u8, line: u8) -> Message
    ensures { result ≡ drop_message shim line }
{
    request(Kind::Drop, shim, line, 0)
}
