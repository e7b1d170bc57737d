ghost use Rattle.std.specs.Prelude.{◌≡◌, ◌+◌, ◌≤◌, ◌++◌, if◌then◌else◌, length, is_ok, IfOk, OnOk, IsOk, vec_len, vec_capacity, Ok, Err};
ghost use Rattle.session.specs.Agreement.{Agrees};
ghost use Rattle.session.specs.Items.{an_answer, item_bytes};
ghost use Rattle.session.specs.Meaning.{item_of};
ghost use Rattle.session.specs.Playing.{printed_by};

use crate::carrier::BUFFER_LEN;
use crate::printed::Printed;
use crate::session::Session;
use fabric::FabricFault;
use itoa::Buffer;
use rules::{Answer, Refusal};
use std::alloc::{AllocError, Global};
use verdict::put_verdict;
use words::write_parts;

// Writes the answer to the call of a step.
fn write_answer(out: &mut Vec<u8>, step: usize, answer: Answer) -> Result<(), AllocError>
    ensures bytes { out.new.items ≡ (if is_ok result then out.old.items ++ item_bytes (an_answer step (Ok answer)) else out.old.items) }
    ensures room { vec_len out.old + length (item_bytes (an_answer step (Ok answer))) ≤ vec_capacity out.old → IsOk result }
    ensures capacity { vec_capacity out.old ≤ vec_capacity out.new }
{
    let mut digits = Buffer::new();
    let step = digits.format(step).as_bytes();
    let word = answer.word();
    match answer {
        Answer::Value(value) => {
            let mut digits = Buffer::new();
            let value = digits.format(value).as_bytes();
            write_parts(out, &[step, b" ", word, b" ", value, b"\n"])
        }
        _ => write_parts(out, &[step, b" ", word, b"\n"]),
    }
}

// Writes the refusal of the call of a step: after `no` its number, and what it carries.
fn write_refusal(out: &mut Vec<u8>, step: usize, refusal: Refusal) -> Result<(), AllocError>
    ensures bytes { out.new.items ≡ (if is_ok result then out.old.items ++ item_bytes (an_answer step (Err refusal)) else out.old.items) }
    ensures room { vec_len out.old + length (item_bytes (an_answer step (Err refusal))) ≤ vec_capacity out.old → IsOk result }
    ensures capacity { vec_capacity out.old ≤ vec_capacity out.new }
{
    let mut digits = Buffer::new();
    let step = digits.format(step).as_bytes();
    let mut digits = Buffer::new();
    let number = digits.format(u8::from(refusal)).as_bytes();
    match refusal {
        Refusal::Fabric(fault @ (FabricFault::Full(_) | FabricFault::Empty(_))) => {
            let mut digits = Buffer::new();
            let own = digits.format(u8::from(fault)).as_bytes();
            let mut digits = Buffer::new();
            let lane = digits.format(fault.lane()).as_bytes();
            write_parts(out, &[step, b" no ", number, b" ", own, b" ", lane, b"\n"])
        }
        Refusal::Foreign(lane) => {
            let mut digits = Buffer::new();
            let lane = digits.format(lane).as_bytes();
            write_parts(out, &[step, b" no ", number, b" ", lane, b"\n"])
        }
        _ => write_parts(out, &[step, b" no ", number, b"\n"]),
    }
}

// Writes a thing that a sheet prints: whole, or nothing of it. It needs no memory but the line's room in the vector.
pub fn write(out: &mut Vec<u8>, printed: Printed) -> Result<(), AllocError>
    ensures bytes { out.new.items ≡ (if is_ok result then out.old.items ++ item_bytes (item_of printed.entry) else out.old.items) }
    ensures room { vec_len out.old + length (item_bytes (item_of printed.entry)) ≤ vec_capacity out.old → IsOk result }
    ensures capacity { vec_capacity out.old ≤ vec_capacity out.new }
{
    match printed {
        Printed::Answered { step, outcome } => match outcome {
            Ok(answer) => write_answer(out, step, answer),
            Err(refusal) => write_refusal(out, step, refusal),
        },
        Printed::Note(text) => write_parts(out, &[text, b"\n"]),
        Printed::Flawed(flaw) => put_verdict(out, Err(flaw)),
    }
}

// All that a sheet prints.
pub fn report<'a>(
    heap: Global,
    sheet: &'a [u8],
    buffer: &'a mut [u8; BUFFER_LEN],
) -> Result<Vec<u8>, AllocError>
    ensures printed { IfOk result (λ v. v.items ≡ printed_by sheet.now) }
    ensures agrees { OnOk result (Agrees sheet.now) }
{
    let mut out = Vec::new(heap);
    let mut session = Session::new(sheet, buffer);
    while let Some(printed) = session.next() {
        write(&mut out, printed)?;
    }
    Ok(out)
}
