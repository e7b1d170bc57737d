// Lists of a run that have claims and handings back: by number, for a list has no handles.
use crate::ask::told;
use crate::call::*;
use crate::stand::{LINES, SHIMS};
use ring::Ring;
use rules::{Action, Answer, Call, Event};
use run::run_events;
use std::test::*;

const DONE: Result<Answer, u8> = Ok(Answer::Done);

// What is asked, and what the board is to say, a refusal by its number.
fn list() -> [(Action, Result<Answer, u8>); 12] {
    let claim = |shim| Action::Claim { shim };
    let hand_back = |shim| Action::HandBack { shim };
    let call = |call: Call| Action::Call(call);
    [
        (hand_back(0), DONE),
        (claim(2), Err(3)),
        (claim(1), DONE),
        (claim(1), Err(13)),
        // A claim changes nothing of what the calls of either shim are told, and neither does handing back.
        (call(load(1, 0)), Ok(Answer::Waits)),
        (hand_back(1), DONE),
        (call(load(1, 0)), Err(6)),
        (claim(1), DONE),
        (call(store(0, 0, 5)), DONE),
        (hand_back(u32::MAX), DONE),
        (claim(0), DONE),
        (claim(1), Err(13)),
    ]
}

#[test]
fn claims_stand_between_the_calls(rt: HostRuntime) -> Result<(), Fail> {
    let mut events = list().map(|(action, _)| Event {
        action,
        outcome: None,
    });
    run_events(SHIMS, LINES, &mut Ring::new(SHIMS as usize), &mut events)?;
    for (event, (_, wanted)) in events.iter().zip(list()) {
        assert_eq!(rt; event.outcome.map(told), Some(wanted));
    }
    Ok(())
}
