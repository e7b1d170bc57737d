ghost use Rattle.std.specs.Prelude.{◌≡◌};
ghost use Rattle.std.specs.Option.{option_map};
ghost use Rattle.rules.specs.Strengths.{strength_number};
ghost use Rattle.sheet.specs.Format.{strength_words, op_word};
ghost use Rattle.sheet.specs.Reading.{fabric_named, fabric_words, index_of};

use crate::line::FabricName;
use crate::op::Op;
use rules::Strength;

// The strength of this name.
pub(crate) fn strength_named(word: &[u8]) -> Option<Strength>
    ensures { option_map strength_number result ≡ index_of strength_words word.now }
{
    match word {
        b"RLX" => Some(Strength::Relaxed),
        b"ACQ" => Some(Strength::Acquire),
        b"REL" => Some(Strength::Release),
        b"SC" => Some(Strength::SeqCst),
        _ => None,
    }
}

// The fabric of this name.
pub(crate) fn fabric_named(word: &[u8]) -> Option<FabricName>
    ensures { result ≡ option_map fabric_named (index_of fabric_words word.now) }
{
    match word {
        b"ring" => Some(FabricName::Ring),
        b"frames" => Some(FabricName::Frames),
        b"staged" => Some(FabricName::Staged),
        _ => None,
    }
}

impl Op {
    // The word that the call begins with.
    pub(crate) fn word(self) -> &'static [u8]
        ensures { result.now ≡ op_word self }
    {
        match self {
            Op::Load => b"load",
            Op::Store => b"store",
            Op::Fence => b"fence",
            Op::Evict => b"evict",
            Op::Up => b"up",
            Op::Down => b"down",
        }
    }
}
