ghost use Rattle.std.specs.Prelude.{◌≡◌, ◌+◌, ◌≤◌, IfOk, IfSome, take, vec_len};
ghost use Rattle.sheet.specs.Format.{size_limit};

use crate::reader::SIZE_LIMIT;
use std::alloc::Global;
use std::io;
use std::io::Read;

// The sheet that an input holds. One byte more than a sheet may have is read, so that a longer one, however long, is told
// apart.
pub fn read_sheet<R: Read + Drop>(heap: Global, input: R) -> io::Result<Vec<u8>>
    ensures bytes { IfOk result (λ text. IfSome (R.remaining input) (λ bytes. text.items ≡ take (size_limit + 1) bytes)) }
    ensures bound { IfOk result (λ text. vec_len text ≤ size_limit + 1) }
{
    let mut text = Vec::new(heap);
    input.take(SIZE_LIMIT as u64 + 1).read_to_end(&mut text)?;
    // no clause of the library bounds what an input of unknown bytes gives; this does
    text.truncate(SIZE_LIMIT + 1);
    Ok(text)
}

#[cfg(test)]
mod tests {
    use super::*;
    use std::fs::File;
    use std::test::Fail;

    #[test]
    fn reads_a_byte_past_the_limit(rt: HostRuntime) -> Result<(), Fail> {
        let text = read_sheet(rt.alloc(), &b"MGL 1\n"[..])?;
        assert_eq!(rt; text.as_slice(), &b"MGL 1\n"[..]);
        let text = read_sheet(rt.alloc(), io::repeat(b'.'))?;
        assert_eq!(rt; text.len(), 65537);
        Ok(())
    }

    // A folder can be opened and not read.
    #[test]
    fn tells_a_read_that_fails(rt: HostRuntime) -> Result<(), Fail> {
        let folder = File::open(&rt, "/")?;
        assert!(rt; read_sheet(rt.alloc(), folder).is_err());
        Ok(())
    }
}
