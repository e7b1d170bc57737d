// Tests of the messages that a board refuses. The fabric is open to anyone who has it, so a hand can put any message on any lane:
// of a kind that does not go that way, from another sender, for a line that is not there, an answer that nothing waits for, or
// with a stamp that the board never reaches. An up or a down that comes to such a message refuses it as foreign, number 12 with the
// lane, and leaves the board and every lane as they were. The modules `going_up` and `coming_down` have a test for each of
// these, and `neighbours` has messages next to them that a hand can put too and that are performed.
#![tactic(auto)]

#[cfg(test)]
mod check;
#[cfg(test)]
mod coming_down;
#[cfg(test)]
mod going_up;
#[cfg(test)]
mod neighbours;
#[cfg(test)]
mod refused;
#[cfg(test)]
mod stand;
#[cfg(test)]
mod step;
