ghost use Rattle.std.specs.Prelude.{◌≡◌, ◌+◌, ◌≤◌, ◌++◌, if◌then◌else◌, length, is_ok, IfOk, IsOk, vec_len, vec_capacity};
ghost use Rattle.verdict.specs.Verdicts.{verdict_bytes, verdict_of};

use crate::checker::check;
use crate::verdict::{Flaw, Verdict};
use itoa::Buffer;
use std::alloc::{AllocError, Global};
use words::write_parts;

// Writes a verdict as a line: whole, or nothing of it. It needs no memory but the line's room in the vector.
pub fn put_verdict(out: &mut Vec<u8>, verdict: Verdict) -> Result<(), AllocError>
    ensures bytes { out.new.items ≡ (if is_ok result then out.old.items ++ verdict_bytes verdict else out.old.items) }
    ensures room { vec_len out.old + length (verdict_bytes verdict) ≤ vec_capacity out.old → IsOk result }
    ensures capacity { vec_capacity out.old ≤ vec_capacity out.new }
{
    match verdict {
        Ok(calls) => write_parts(
            out,
            &[b"ok ", Buffer::new().format(calls).as_bytes(), b"\n"],
        ),
        Err(Flaw::WrongBoard) => write_parts(out, &[b"no 1\n"]),
        Err(Flaw::Fault { fault, line }) => {
            let number = u8::from(fault.kind);
            write_parts(
                out,
                &[
                    b"fault ",
                    Buffer::new().format(number).as_bytes(),
                    b" at ",
                    Buffer::new().format(fault.place).as_bytes(),
                    b" line ",
                    Buffer::new().format(line).as_bytes(),
                    b"\n",
                ],
            )
        }
    }
}

// What the check of a sheet prints.
pub fn report(heap: Global, sheet: &[u8]) -> Result<Vec<u8>, AllocError>
    ensures { IfOk result (λ v. v.items ≡ verdict_bytes (verdict_of sheet.now)) }
{
    let mut out = Vec::new(heap);
    put_verdict(&mut out, check(sheet))?;
    Ok(out)
}
