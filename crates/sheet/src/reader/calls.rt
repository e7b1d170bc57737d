ghost use Rattle.std.specs.Prelude.{◌≡◌, Ok, OnOk};
ghost use Rattle.sheet.specs.Moves.{MovedTo};
ghost use Rattle.sheet.specs.declared.line.Line.TheVariants.{Call as Called};
ghost use Rattle.sheet.specs.Lines.{call_line_at};
ghost use Rattle.sheet.specs.Reading.{followed_by, word_end, operands_at, operands_end, op_operands, call_of};

use crate::line::Line;
use crate::op::Op;
use crate::reader::Reader;
use rules::Call;
use words::Fault;

impl<'a> Reader<'a> {
    // The line of this call, whose operands follow the word that ends here.
    fn operands(&mut self, op: Op) -> Result<Line<'a>, Fault>
        ensures value { result ≡ followed_by (operands_at (op_operands op) self.old.sheet.now self.old.at) (λ vs. Ok (Called (call_of op vs))) }
        ensures after { OnOk result (MovedTo self.old self.new (operands_end (op_operands op) self.old.sheet.now self.old.at)) }
    {
        let call = match op {
            Op::Load => Call::Load {
                shim: self.number()?,
                line: self.number()?,
                strength: self.strength()?,
            },
            Op::Store => Call::Store {
                shim: self.number()?,
                line: self.number()?,
                strength: self.strength()?,
                value: self.number()?,
            },
            Op::Fence => Call::Fence {
                shim: self.number()?,
                strength: self.strength()?,
            },
            Op::Evict => Call::Evict {
                shim: self.number()?,
                line: self.number()?,
            },
            Op::Up => Call::Up {
                shim: self.number()?,
            },
            Op::Down => Call::Down {
                shim: self.number()?,
            },
        };
        self.end_line()?;
        Ok(Line::Call(call))
    }

    // The line of this call, which begins here.
    pub(super) fn call(&mut self, op: Op) -> Result<Line<'a>, Fault>
        ensures value { result ≡ call_line_at op self.old.sheet.now self.old.at }
        ensures after { OnOk result (MovedTo self.old self.new (operands_end (op_operands op) self.old.sheet.now (word_end self.old.sheet.now self.old.at))) }
    {
        self.keyword(op.word())?;
        self.operands(op)
    }
}
