use crate::deed::Deed;
use crate::names::{Line, READY, Role};
use fabric::Word;
use rules::{Answer, Outcome};

// What the heater saw so far.
#[derive(Clone, Copy, Default)]
pub(crate) struct Watch {
    // The line whose word the heater waits for.
    awaited: Option<Line>,
    ready: bool,
    old_step: bool,
}

impl Watch {
    pub(crate) fn note(&mut self, deed: Deed, outcome: Outcome) {
        match (deed, outcome) {
            (Deed::Load(Role::Heater, line), Ok(Answer::Value(word))) => self.saw(line, word),
            (Deed::Load(Role::Heater, line), Ok(Answer::Waits)) => self.awaited = Some(line),
            (Deed::Turn(Role::Heater), Ok(Answer::Value(word))) => self.ended(word),
            _ => {}
        }
    }

    // Whether the heater saw the ready word of the new cast.
    pub(crate) fn saw_ready(&self) -> bool {
        self.ready
    }

    // Whether the heater, when it had seen that word, still saw a step of the last cast.
    pub(crate) fn saw_old_step(&self) -> bool {
        self.old_step
    }

    fn ended(&mut self, word: Word) {
        if let Some(line) = self.awaited.take() {
            self.saw(line, word);
        }
    }

    fn saw(&mut self, line: Line, word: Word) {
        match line.step() {
            Some(step) if self.ready && word != step => self.old_step = true,
            None if line == Line::ReadyWord && word == READY => self.ready = true,
            _ => {}
        }
    }
}

#[cfg(test)]
mod tests {
    use super::*;
    use crate::names::{FIRST_STEP, SECOND_STEP};

    // What a watch says once the heater, in this order, loaded a line and was answered a word: at once, or by a turn.
    fn watched(loads: &[(Line, Word)], waits: bool) -> Watch {
        let mut watch = Watch::default();
        for (line, word) in loads {
            let load = Deed::Load(Role::Heater, *line);
            if waits {
                watch.note(load, Ok(Answer::Waits));
                watch.note(Deed::Turn(Role::Heater), Ok(Answer::Value(*word)));
            } else {
                watch.note(load, Ok(Answer::Value(*word)));
            }
        }
        watch
    }

    // The run of the program has no old step after the ready word, so it never shows that one would be told.
    #[test]
    fn an_old_step_is_told(rt: HostRuntime) {
        let ready = (Line::ReadyWord, READY);
        for (old, new) in [
            ((Line::FirstStep, 0), (Line::FirstStep, FIRST_STEP)),
            ((Line::SecondStep, 0), (Line::SecondStep, SECOND_STEP)),
        ] {
            for waits in [false, true] {
                assert!(rt; watched(&[ready, new, old], waits).saw_old_step());
                assert!(rt; !watched(&[old, ready, new], waits).saw_old_step());
                assert!(rt; !watched(&[old, (Line::ReadyWord, 0), old], waits).saw_ready());
            }
        }
    }
}
