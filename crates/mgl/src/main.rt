#![tactic(auto)]

use session::BUFFER_LEN;
use sheet::read_sheet;
use std::io;
use std::io::Write;

// Runs the sheet on standard input and prints what it prints.
fn main(rt: HostRuntime) -> io::Result<()> {
    let text = read_sheet(rt.alloc(), rt.stdin())?;
    let mut buffer = [0; BUFFER_LEN];
    let printed = session::report(rt.alloc(), &text, &mut buffer)?;
    rt.stdout().write_all(&printed)
}
