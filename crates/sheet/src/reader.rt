ghost use Rattle.std.specs.Prelude.{◌≤◌, length};

mod board;
mod calls;
mod lines;
mod operands;
mod scan;

pub use board::SIZE_LIMIT;

// Reads a sheet from left to right. The whole sheet stays beside the place, since a fault names a byte counted from its start.
#[derive(Clone, Copy)]
pub struct Reader<'a> {
    sheet: &'a [u8],
    // how many bytes have been read
    at: usize,
    ghost within: { at ≤ length sheet.now },
}
