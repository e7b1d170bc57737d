// A cast in a burnout oven: three chips share a board through their handles, and the heater throws a step out while messages about it are on their way.
// Prints what each chip did and saw, whether the heater ever saw the ready word with an old step, and whether one call that makes the same list is answered the same.
#![tactic(auto)]

use crate::again::same_answers;
use crate::cast::cast;
use crate::log::{Entry, Log};
use crate::oven::Oven;
use crate::watch::Watch;
use rules::Answer;
use std::io;
use std::io::Write;

mod again;
mod cast;
mod deed;
mod log;
mod names;
mod oven;
mod watch;

fn tell(rt: &HostRuntime, entry: &Entry) -> io::Result<()> {
    print!(rt; "{}: ", entry.deed)?;
    match entry.outcome {
        Ok(Answer::Value(word)) => println!(rt; "{word}"),
        Ok(answer) => {
            rt.stdout().write_all(answer.word())?;
            println!(rt;)
        }
        Err(refusal) => println!(rt; "no {refusal}"),
    }
}

fn verdict(watch: &Watch) -> &'static str {
    if watch.saw_old_step() {
        "the heater saw the ready word with an old step"
    } else if watch.saw_ready() {
        "the heater never saw the ready word with an old step"
    } else {
        "the heater never saw the ready word"
    }
}

fn tell_all(rt: &HostRuntime, oven: &Oven) -> io::Result<()> {
    for entry in oven.log().entries() {
        tell(rt, entry)?;
    }
    println!(rt; "{}", verdict(oven.watch()))?;
    tell_again(rt, oven.log())
}

fn tell_again(rt: &HostRuntime, log: &Log) -> io::Result<()> {
    match same_answers(log) {
        Ok(same) => {
            println!(rt;
                "the same list, made by one call: the same answers, {same} of {}",
                log.deeds()
            )
        }
        Err(refusal) => println!(rt; "the same list, made by one call: no {refusal}"),
    }
}

fn main(rt: HostRuntime) -> io::Result<()> {
    match Oven::new() {
        Ok(mut oven) => {
            cast(&mut oven);
            tell_all(&rt, &oven)
        }
        Err(refusal) => println!(rt; "no board: no {refusal}"),
    }
}
