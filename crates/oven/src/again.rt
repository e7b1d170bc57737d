use crate::log::Log;
use crate::names::{LINES, SHIMS};
use crate::oven::lanes;
use rules::Refusal;
use run::run_events;

// Makes the list of all that was done once more, by one call and on a board of its own, and counts the answers that are the same.
pub(crate) fn same_answers(log: &Log) -> Result<usize, Refusal> {
    let entries = log.entries();
    let mut events = log.events();
    let events = &mut events[..entries.len()];
    run_events(SHIMS, LINES, &mut lanes(), events)?;
    Ok(
        events
            .iter()
            .zip(entries)
            .filter(|(event, entry)| event.outcome == Some(entry.outcome))
            .count(),
    )
}
