// Two programs of chips, as models for firmware: one turns until its handle is ready, the other hands its handle back.
#![tactic(auto)]

use crate::console::Console;
use crate::scene::SHIMS;
use ring::Ring;
use rules::Refusal;
use std::io;

mod console;
mod handing_back;
mod scene;
mod turning;

fn run(console: &mut Console) -> Result<(), Refusal> {
    let mut ring = Ring::new(SHIMS as usize);
    let mut board = scene::board_with_an_update(&mut ring)?;
    turning::run(console, &mut board, &mut ring)?;
    handing_back::run(console, &mut board, &mut ring)
}

fn main(rt: HostRuntime) -> io::Result<()> {
    let mut console = Console::new(&rt);
    if let Err(refusal) = run(&mut console) {
        console.tell("a call that should be good", Err(refusal));
    }
    console.close()
}
