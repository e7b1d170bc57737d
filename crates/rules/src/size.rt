ghost use Rattle.std.specs.Prelude.{◌≡◌};
ghost use Rattle.rules.specs.Sizes.{is_size};

use fabric::MAX_SHIMS;

// How many lines a board can have.
pub const MAX_LINES: usize = 64;

// Whether a board can have this many shims and lines.
pub fn is_board_size(shims: u32, lines: u32) -> bool
    ensures { result ≡ is_size shims lines }
{
    (1..=MAX_SHIMS).contains(&(shims as usize)) && (1..=MAX_LINES).contains(&(lines as usize))
}
