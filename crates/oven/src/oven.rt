use crate::deed::Deed;
use crate::log::Log;
use crate::names::{LINES, Line, Role, SHIMS};
use crate::watch::Watch;
use board::Board;
use fabric::{Fabric, LANES_PER_SHIM, Word};
use handles::{Handle, Ready};
use ring::Ring;
use rules::{Answer, Outcome, Refusal};
use stage::Stage;

// The lanes of the oven.
pub(crate) fn lanes() -> Stage<Ring> {
    Stage::new(Ring::new(SHIMS as usize))
}

// A chip with its handle, and with none where its shim could not be claimed.
pub(crate) struct Chip {
    role: Role,
    handle: Option<Handle>,
    // The word that its last call gave, where it gave one.
    word: Option<Word>,
}

impl Chip {
    // A chip that made no call.
    fn idle(role: Role, handle: Option<Handle>) -> Chip {
        Chip {
            role,
            handle,
            word: None,
        }
    }

    fn parts(self) -> (Role, Option<Handle>) {
        let Chip {
            role,
            handle,
            word: _,
        } = self;
        (role, handle)
    }

    pub(crate) fn role(&self) -> Role {
        self.role
    }

    pub(crate) fn word(&self) -> Option<Word> {
        self.word
    }
}

// The board, its lanes, and what was done on it.
#[derive(Drop)]
pub(crate) struct Oven {
    board: Board,
    lanes: Stage<Ring>,
    log: Log,
    watch: Watch,
}

// A chip goes into each of its calls, and comes back out of it.
impl Oven {
    pub(crate) fn new() -> Result<Oven, Refusal> {
        let lanes = lanes();
        Ok(Oven {
            board: Board::new(&lanes, SHIMS, LINES)?,
            lanes,
            log: Log::new(),
            watch: Watch::default(),
        })
    }

    pub(crate) fn log(&self) -> &Log {
        &self.log
    }

    pub(crate) fn watch(&self) -> &Watch {
        &self.watch
    }

    // How many messages are on their way to a chip.
    pub(crate) fn waiting(&self, role: Role) -> usize {
        self.lanes
            .waiting(LANES_PER_SHIM * role.shim() as usize + 1)
    }

    pub(crate) fn claim(&mut self, role: Role) -> Chip {
        match Ready::claim(&mut self.board, role.shim()) {
            Ok(ready) => {
                self.note(Deed::Claim(role), Ok(Answer::Done));
                Chip::idle(role, Some(Handle::Ready(ready)))
            }
            Err(refusal) => {
                self.note(Deed::Claim(role), Err(refusal));
                Chip::idle(role, None)
            }
        }
    }

    pub(crate) fn load(&mut self, chip: Chip, line: Line) -> Chip {
        let deed = Deed::Load(chip.role, line);
        self.ask(chip, deed, |ready, board, lanes| {
            ready.load(board, lanes, line.number(), line.load_strength())
        })
    }

    pub(crate) fn store(&mut self, chip: Chip, line: Line, word: Word) -> Chip {
        let deed = Deed::Store(chip.role, line, word);
        self.ask(chip, deed, |ready, board, lanes| {
            ready.store(board, lanes, line.number(), line.store_strength(), word)
        })
    }

    pub(crate) fn evict(&mut self, chip: Chip, line: Line) -> Chip {
        let deed = Deed::Evict(chip.role, line);
        self.ask(chip, deed, |ready, board, lanes| {
            let (ready, outcome) = ready.evict(board, lanes, line.number());
            (Handle::Ready(ready), outcome)
        })
    }

    // A chip with a ready handle makes the call. One that waits, or has no handle, makes none.
    fn ask<C: FnOnce(Ready, &mut Board, &mut Stage<Ring>) -> (Handle, Outcome)>(
        &mut self,
        chip: Chip,
        deed: Deed,
        call: C,
    ) -> Chip
        requires { C.IsAlwaysCallable call }
    {
        let (role, handle) = chip.parts();
        match handle {
            Some(Handle::Ready(ready)) => {
                let (handle, outcome) = call(ready, &mut self.board, &mut self.lanes);
                self.after(role, deed, handle, outcome)
            }
            handle => Chip::idle(role, handle),
        }
    }

    // The chip turns until its wait has ended. There are no more turns than messages on their way to it; a chip that does not wait makes none.
    pub(crate) fn turn_until_ready(&mut self, mut chip: Chip) -> Chip {
        for _ in 0..self.waiting(chip.role) {
            chip = self.turn(chip);
        }
        chip
    }

    fn turn(&mut self, chip: Chip) -> Chip {
        let (role, handle) = chip.parts();
        match handle {
            Some(Handle::Waiting(waiting)) => {
                let (handle, outcome) = waiting.turn(&mut self.board, &mut self.lanes);
                self.after(role, Deed::Turn(role), handle, outcome)
            }
            handle => Chip::idle(role, handle),
        }
    }

    pub(crate) fn hand_back(&mut self, chip: Chip) {
        let (role, handle) = chip.parts();
        if let Some(handle) = handle {
            handle.hand_back(&mut self.board);
            self.note(Deed::HandBack(role), Ok(Answer::Done));
        }
    }

    // The hub performs the chip's next message.
    pub(crate) fn up(&mut self, role: Role) {
        let outcome = self.board.up(&mut self.lanes, role.shim());
        self.note(Deed::Up(role), outcome);
    }

    // A chip that does not wait is handed its next message.
    pub(crate) fn down(&mut self, role: Role) {
        let outcome = self.board.down(&mut self.lanes, role.shim());
        self.note(Deed::Down(role), outcome);
    }

    // The chip as it comes back out of a call.
    fn after(&mut self, role: Role, deed: Deed, handle: Handle, outcome: Outcome) -> Chip {
        self.note(deed, outcome);
        Chip {
            role,
            handle: Some(handle),
            word: match outcome {
                Ok(Answer::Value(word)) => Some(word),
                _ => None,
            },
        }
    }

    fn note(&mut self, deed: Deed, outcome: Outcome) {
        self.log.keep(deed, outcome);
        self.watch.note(deed, outcome);
    }
}
