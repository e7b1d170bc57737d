use crate::action::Action;
use crate::answer::Outcome;

// What a list asks of a board, and the place for what the board says to it.
#[derive(Clone, Copy)]
pub struct Event {
    pub action: Action,
    pub outcome: Option<Outcome>,
}
