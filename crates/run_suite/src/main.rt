#![tactic(auto)]

use session::BUFFER_LEN;
use sheet::read_sheet;
use std::fs::File;
use std::io::Write;
use std::{env, io};

// Runs each sheet that the arguments name, and prints its name and what it prints.
fn main(rt: HostRuntime) -> io::Result<()> {
    for name in env::args(&rt)?.skip(1) {
        let text = read_sheet(rt.alloc(), File::open(&rt, name.as_str())?)?;
        let mut buffer = [0; BUFFER_LEN];
        let printed = session::report(rt.alloc(), &text, &mut buffer)?;
        println!(rt; "== {name}")?;
        rt.stdout().write_all(&printed)?;
    }
    Ok(())
}
