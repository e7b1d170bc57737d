ghost use Rattle.std.specs.Prelude.{◌≡◌};
ghost use Rattle.std.specs.Option.{option_map};
ghost use Rattle.session.specs.Meaning.{play_of, item_of, OwnPart};
ghost use Rattle.session.specs.Playing.{next_item};

use crate::printed::Printed;
use crate::session::{Phase, Session};
use sheet::Line;
use verdict::Flaw;

impl<'a> Session<'a> {
    // Nothing is told any more. It stands apart from `next`: a function clears the room of all its
    // values when it is entered, and a phase has the room of a board.
    fn stop(&mut self)
        ensures left { self.new.phase ≡ Phase.Over }
        ensures reader { self.new.reader ≡ self.old.reader }
    {
        self.phase = Phase::Over;
    }

    // The next thing that the sheet prints; nothing when all is printed. It is no `Iterator`, which has one relation in the place of these four clauses.
    pub fn next(&mut self) -> Option<Printed<'a>>
        ensures item { option_map item_of result ≡ (next_item self.old.reader.sheet.now (play_of self.old)).0 }
        ensures left { play_of self.new ≡ (next_item self.old.reader.sheet.now (play_of self.old)).1 }
        ensures note { OwnPart self.old.reader.sheet self.old.reader.at result }
        ensures sheet { self.new.reader.sheet ≡ self.old.reader.sheet }
    {
        match &mut self.phase {
            Phase::Running(rig) => match self.reader.next_line() {
                Ok(Some(Line::Call(call))) => {
                    self.steps += 1;
                    Some(Printed::Answered {
                        step: self.steps,
                        outcome: rig.call(call),
                    })
                }
                Ok(Some(Line::Note(text))) => Some(Printed::Note(text)),
                Ok(None) => {
                    self.stop();
                    None
                }
                Err(fault) => {
                    self.stop();
                    Some(Printed::Flawed(Flaw::of(self.sheet, fault)))
                }
            },
            Phase::Flawed(flaw) => {
                let flaw = *flaw;
                self.stop();
                Some(Printed::Flawed(flaw))
            }
            Phase::Over => None,
        }
    }
}
