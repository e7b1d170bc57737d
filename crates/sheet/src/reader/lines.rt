ghost use Rattle.std.specs.Prelude.{◌≡◌, OnOk, slice_index};
ghost use Rattle.sheet.specs.Format.{hash};
ghost use Rattle.sheet.specs.Lines.{LineAt, NextLine};

use crate::line::Line;
use crate::op::Op;
use crate::reader::Reader;
use words::{Fault, FaultKind};

impl<'a> Reader<'a> {
    // The note that begins here.
    fn note(&mut self) -> Result<Line<'a>, Fault>
        requires { slice_index self.old.sheet.now self.old.at ≡ hash }
        ensures line { LineAt self.old.sheet self.old.at result self.new.at }
        ensures sheet { OnOk result (self.new.sheet ≡ self.old.sheet) }
    {
        let text = self.rest_of_line();
        self.end_line()?;
        Ok(Line::Note(text))
    }

    // The line that begins here. Its first byte, as a char, decides what it can be; the bytes then confirm it.
    fn line(&mut self) -> Result<Line<'a>, Fault>
        ensures line { LineAt self.old.sheet self.old.at result self.new.at }
        ensures sheet { OnOk result (self.new.sheet ≡ self.old.sheet) }
    {
        self.wanted()?;
        match self.sheet[self.at] as char {
            'l' => self.call(Op::Load),
            's' => self.call(Op::Store),
            'f' => self.call(Op::Fence),
            'e' => self.call(Op::Evict),
            'u' => self.call(Op::Up),
            'd' => self.call(Op::Down),
            '#' => self.note(),
            _ => Err(FaultKind::UnknownWord.at(self.at)),
        }
    }

    // The next line, or none at the end of the sheet. After a fault the reader is where it was. It is no `Iterator`: the lines can end in a fault.
    pub fn next_line(&mut self) -> Result<Option<Line<'a>>, Fault>
        ensures line { NextLine self.old.sheet self.old.at result self.new.at }
        ensures sheet { self.new.sheet ≡ self.old.sheet }
    {
        if self.at >= self.sheet.len() {
            return Ok(None);
        }
        let mut ahead = *self;
        let line = ahead.line()?;
        *self = ahead;
        Ok(Some(line))
    }
}
