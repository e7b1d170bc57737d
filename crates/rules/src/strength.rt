ghost use Rattle.std.specs.Prelude.{◌≡◌, MatchOption};
ghost use Rattle.rules.specs.Strengths.{strength_number, strength_or_unknown, takes, fitting, mark_of, mark_strength, is_sc, asks_sync};

use crate::unknown::UnknownNumber;

// How strictly a call is ordered with the calls around it, by the names of C11.
#[derive(Clone, Copy, PartialEq, Eq, Debug)]
pub enum Strength {
    Relaxed = 0,
    Acquire = 1,
    Release = 2,
    SeqCst = 3,
}

// The calls that have a strength.
#[derive(Clone, Copy, PartialEq, Eq, Debug)]
pub enum Access {
    Load,
    Store,
    Fence,
}

impl From<Strength> for u8 {
    ghost from_gives = { λ k n. n ≡ strength_number k };

    fn from(strength: Strength) -> u8 {
        strength as u8
    }
}

impl TryFrom<u8> for Strength {
    type Error = UnknownNumber;

    ghost try_from_gives = { λ g r. r ≡ strength_or_unknown g };

    fn try_from(number: u8) -> Result<Strength, UnknownNumber> {
        match number {
            0 => Ok(Strength::Relaxed),
            1 => Ok(Strength::Acquire),
            2 => Ok(Strength::Release),
            3 => Ok(Strength::SeqCst),
            _ => Err(UnknownNumber(number)),
        }
    }
}

impl Strength {
    // Whether a call takes this strength.
    pub fn fits(self, access: Access) -> bool
        ensures { result ≡ takes access self }
    {
        match access {
            Access::Load => self != Strength::Release,
            Access::Store => self != Strength::Acquire,
            Access::Fence => self == Strength::SeqCst,
        }
    }

    // The strength of that number, where a call takes it.
    #[tactic(auto, unfolding(crate::specs::Strengths::fitting))]
    pub fn fitting(access: Access, number: u8) -> Option<Strength>
        ensures value { result ≡ fitting access number }
        ensures number { MatchOption result Unit (λ k. strength_number k ≡ number) }
    {
        Strength::try_from(number)
            .ok()
            .filter(|strength| strength.fits(access))
    }

    // The mark of a message of this strength.
    pub fn mark(self, synchronise: bool) -> u8
        ensures { result ≡ mark_of (strength_number self) synchronise }
    {
        let asked = if synchronise { SYNCHRONISE } else { 0 };
        u8::from(self) + asked
    }
}

// What a mark has added where a store asks to be synchronised.
const SYNCHRONISE: u8 = 16;

// The strength in a mark that arrives: its four lowest bits.
pub fn mark_strength(mark: u8) -> u8
    ensures { result ≡ mark_strength mark }
{
    mark % SYNCHRONISE
}

// Whether the strength in a mark is SC.
pub fn is_sc(mark: u8) -> bool
    ensures { result ≡ is_sc mark }
{
    mark_strength(mark) == u8::from(Strength::SeqCst)
}

// Whether a mark asks to be synchronised.
pub fn asks_sync(mark: u8) -> bool
    ensures { result ≡ asks_sync mark }
{
    mark / SYNCHRONISE % 2 == 1
}
