// The law of the common order on three short runs of a board: what its words say there, and what tells seven laws near it from it.
// Prints what the board says to each call.
#![tactic(auto)]

ghost use Rattle.law_cases.specs.Examples.{Examples};
ghost use Rattle.law_cases.specs.Neighbours.{Neighbours};

use crate::sheets::{answer, crossed, own, plain};
use rules::{Answer, Event};
use std::io;
use std::io::Write;

mod calls;
mod sheets;

fn tell(rt: &HostRuntime, place: usize, event: &Event) -> io::Result<()> {
    print!(rt; "{place}: ")?;
    match event.outcome {
        Some(Ok(Answer::Value(word))) => println!(rt; "value {word}"),
        Some(Ok(answer)) => {
            rt.stdout().write_all(answer.word())?;
            println!(rt;)
        }
        Some(Err(refusal)) => println!(rt; "no {refusal}"),
        None => println!(rt; "no board"),
    }
}

// Makes the calls of a list, and tells what the board said.
fn run(rt: &HostRuntime, name: &str, events: &mut [Event]) -> io::Result<()> {
    answer(events);
    println!(rt; "{name}")?;
    for (place, event) in events.iter().enumerate() {
        tell(rt, place, event)?;
    }
    Ok(())
}

// The law on these runs, and what tells its neighbours from it. It does nothing, and promises all the same.
fn law()
    ensures examples { Examples }
    ensures neighbours { Neighbours }
{}

fn main(rt: HostRuntime) -> io::Result<()> {
    law();
    run(&rt, "plain", &mut plain())?;
    run(&rt, "own", &mut own())?;
    run(&rt, "crossed", &mut crossed())
}
