#![tactic(auto)]

use std::io;
use std::io::Write;

// Checks the sheet on standard input and prints the verdict.
fn main(rt: HostRuntime) -> io::Result<()> {
    let text = sheet::read_sheet(rt.alloc(), rt.stdin())?;
    let line = verdict::report(rt.alloc(), &text)?;
    rt.stdout().write_all(&line)
}
