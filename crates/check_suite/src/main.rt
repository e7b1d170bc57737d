#![tactic(auto)]

use sheet::{SIZE_LIMIT, read_sheet};
use std::alloc::{AllocError, Global};
use std::fs::File;
use std::io::Write;
use std::{env, io};

// A board line and a note that goes on to the end of a sheet of `length` bytes, of which `last` is the last.
fn long_sheet(heap: Global, length: usize, last: u8) -> Result<Vec<u8>, AllocError> {
    let start = b"MGL 1\nboard 2 1 ring\n#";
    let mut text = Vec::new(heap);
    text.extend_from_slice(start)?;
    text.resize(length.saturating_sub(1), b'.')?;
    text.push(last)?;
    Ok(text)
}

// Prints what a sheet is and the verdict on it.
fn show(rt: &HostRuntime, name: &str, text: &[u8]) -> io::Result<()> {
    let line = verdict::report(rt.alloc(), text)?;
    print!(rt; "{name}: ")?;
    rt.stdout().write_all(&line)
}

// Checks each sheet that the arguments name, an endless one among them, and then sheets as long as one may be and longer.
fn main(rt: HostRuntime) -> io::Result<()> {
    for name in env::args(&rt)?.skip(1) {
        let text = read_sheet(rt.alloc(), File::open(&rt, name.as_str())?)?;
        show(&rt, name.as_str(), &text)?;
    }
    show(
        &rt,
        "65536 bytes",
        &long_sheet(rt.alloc(), SIZE_LIMIT, b'\n')?,
    )?;
    show(
        &rt,
        "65536 bytes without a last line feed",
        &long_sheet(rt.alloc(), SIZE_LIMIT, b'.')?,
    )?;
    show(
        &rt,
        "65537 bytes",
        &long_sheet(rt.alloc(), SIZE_LIMIT + 1, b'\n')?,
    )
}
