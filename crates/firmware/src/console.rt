use rules::{Answer, Outcome};
use std::io;
use std::io::Write;

// Where the programs tell what they were answered. Whoever holds a handle cannot leave by `?`, so the console keeps the first failure to the end.
pub(crate) struct Console<'a> {
    rt: &'a HostRuntime,
    printed: io::Result<()>,
}

impl<'a> Console<'a> {
    pub(crate) fn new(rt: &'a HostRuntime) -> Console<'a> {
        Console {
            rt,
            printed: Ok(()),
        }
    }

    pub(crate) fn tell(&mut self, what: &str, outcome: Outcome) {
        if self.printed.is_ok() {
            self.printed = tell(self.rt, what, outcome);
        }
    }

    // Whether all was printed.
    pub(crate) fn close(self) -> io::Result<()> {
        let Console { rt: _, printed } = self;
        printed
    }
}

// What a board said, in the words of the protocol.
fn tell(rt: &HostRuntime, what: &str, outcome: Outcome) -> io::Result<()> {
    print!(rt; "{what}: ")?;
    match outcome {
        Ok(Answer::Value(word)) => println!(rt; "{word}"),
        Ok(answer) => {
            rt.stdout().write_all(answer.word())?;
            println!(rt;)
        }
        Err(refusal) => println!(rt; "no {refusal}"),
    }
}
