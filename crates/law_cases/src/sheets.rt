// Three lists of calls, and what a board of two shims and two lines over a ring says to such a list.
ghost use Rattle.std.specs.Prelude.{◌≡◌};
ghost use Rattle.run.specs.Told.{calls_of};
ghost use Rattle.law_cases.specs.Sheets.{asked_of, told, plain, own, crossed};

use crate::calls::*;
use ring::Ring;
use rules::Event;
use run::run_events;

const SHIMS: u32 = 2;

const LINES: u32 = 2;

// What the board says to each.
#[tactic(auto, unfolding(crate::specs::Sheets::told))]
pub(crate) fn answer(events: &mut [Event])
    ensures told { calls_of events.new ≡ told events.old }
{
    let _made = run_events(SHIMS, LINES, &mut Ring::new(SHIMS as usize), events);
}

// Both stores wait in their up lanes, and both loads still give the old word.
pub(crate) fn plain() -> [Event; 12]
    ensures calls { result ≡ asked_of plain }
{
    [
        load(0, 1),
        up(0),
        down(0),
        load(1, 0),
        up(1),
        down(1),
        store(0, 0, 1),
        store(1, 1, 1),
        load(0, 1),
        load(1, 0),
        up(0),
        up(1),
    ]
}

// The same, where each chip first loads what it stored.
pub(crate) fn own() -> [Event; 14]
    ensures calls { result ≡ asked_of own }
{
    [
        load(0, 1),
        up(0),
        down(0),
        load(1, 0),
        up(1),
        down(1),
        store(0, 0, 1),
        store(1, 1, 1),
        load(0, 0),
        load(0, 1),
        load(1, 1),
        load(1, 0),
        up(1),
        up(0),
    ]
}

// A call of each kind. The hub performs the second store first; at the end no message waits.
pub(crate) fn crossed() -> [Event; 18]
    ensures calls { result ≡ asked_of crossed }
{
    [
        store(0, 0, 1),
        store(1, 0, 2),
        store(0, 7, 3),
        up(1),
        up(0),
        down(0),
        down(1),
        down(1),
        load(1, 0),
        load(1, 1),
        up(1),
        down(1),
        evict(1, 1),
        up(1),
        fence(0),
        up(0),
        down(0),
        down(1),
    ]
}
