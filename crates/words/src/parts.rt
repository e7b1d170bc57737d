ghost use Rattle.std.specs.Prelude.{◌≡◌, ◌+◌, ◌≤◌, ◌++◌, if◌then◌else◌, length, is_ok, IsOk, vec_len, vec_capacity};
ghost use Rattle.words.specs.Parts.{joined};

use std::alloc::AllocError;

// Writes parts one behind the other: all of them, or nothing. It needs no memory but their room in the vector.
pub fn write_parts(out: &mut Vec<u8>, parts: &[&[u8]]) -> Result<(), AllocError>
    ensures bytes { out.new.items ≡ (if is_ok result then out.old.items ++ joined parts.now else out.old.items) }
    ensures room { vec_len out.old + length (joined parts.now) ≤ vec_capacity out.old → IsOk result }
    ensures capacity { vec_capacity out.old ≤ vec_capacity out.new }
{
    let len = out.len();
    for part in parts {
        if out.extend_from_slice(part).is_err() {
            out.truncate(len);
            return Err(AllocError);
        }
    }
    Ok(())
}
