ghost use Rattle.std.specs.Prelude.{◌≡◌, true, ◌+◌, not, ◌||◌, if◌then◌else◌, Some, None};
ghost use Rattle.rules.specs.Down.{over_limit};
ghost use Rattle.rules.specs.State.{copy_of, stamp_of, is_unsettled, settled_at};
ghost use Rattle.effects.specs.Delivery.{update_left, delivery, delivered, delivered_kind};

use fabric::{Message, Word};
use rules::{Answer, Held, Kind, STAMP_LIMIT, Wait, asks_sync, is_sc};

// A settled line; none where its stamp is above the limit.
fn settled(copy: Word, stamp: u32) -> Option<Held>
    ensures { result ≡ (if over_limit stamp then None else settled_at copy stamp) }
{
    (stamp <= STAMP_LIMIT).then_some(Held {
        settled: true,
        copy,
        stamp,
    })
}

// Gives a settled line an update: a greater stamp brings its word. Whether the stamp stays within the limit; otherwise nothing changes.
fn update(held: &mut Held, msg: Message) -> bool
    requires { held.old.settled ≡ true }
    ensures { (result, Some held.new) ≡ update_left held.old msg }
{
    let (copy, stamp) = if msg.stamp > held.stamp {
        (msg.value, msg.stamp)
    } else {
        (held.copy, held.stamp.saturating_add(1))
    };
    if stamp > STAMP_LIMIT {
        return false;
    }
    held.copy = copy;
    held.stamp = stamp;
    true
}

// The line after an acknowledgement of a store that asked to be synchronised; none where it cannot be settled by it.
fn acknowledged(here: Option<Held>, msg: Message) -> Option<Held>
    ensures { result ≡ (if not (is_unsettled here) || over_limit (stamp_of here + msg.stamp) then None else settled_at (copy_of here) (stamp_of here + msg.stamp)) }
{
    let held = here.filter(|held| !held.settled)?;
    settled(held.copy, held.stamp.checked_add(msg.stamp)?)
}

// Hands a message of this kind to a shim that waits for `wait` and has `here` at the message's line, and answers; none, and no change, where it is foreign.
fn deliver_kind(
    wait: &mut Option<Wait>,
    here: &mut Option<Held>,
    msg: Message,
    kind: Kind,
) -> Option<Answer>
    ensures { delivery result wait.new here.new ≡ delivered_kind wait.old here.old msg kind }
{
    match (*wait, kind) {
        (_, Kind::Write) if msg.stamp > 0 => {
            if let Some(held) = here
                && held.settled
                && !update(held, msg)
            {
                return None;
            }
            Some(Answer::Handled(kind))
        }
        (Some(Wait::Load(line)), Kind::ReadResponse) if line == msg.line => {
            *wait = None;
            *here = Some(Held {
                settled: true,
                copy: msg.value,
                stamp: msg.stamp,
            });
            Some(Answer::Value(msg.value))
        }
        (_, Kind::FenceRequest) => Some(Answer::Handled(kind)),
        (Some(Wait::Fence), Kind::FenceResponse) if msg.line == 0 => {
            *wait = None;
            Some(Answer::Ended)
        }
        (Some(Wait::Store(line)), Kind::WriteAck) if is_sc(msg.mark) && line == msg.line => {
            if asks_sync(msg.mark) {
                *here = Some(acknowledged(*here, msg)?);
            }
            *wait = None;
            Some(Answer::Ended)
        }
        (_, Kind::WriteAck) if asks_sync(msg.mark) && !is_sc(msg.mark) => {
            *here = Some(acknowledged(*here, msg)?);
            Some(Answer::Handled(kind))
        }
        _ => None,
    }
}

// Hands a message to a shim that waits for `wait` and has `here` at the message's line, and answers; none, and no change, where it is foreign.
pub fn deliver(wait: &mut Option<Wait>, here: &mut Option<Held>, msg: Message) -> Option<Answer>
    ensures { delivery result wait.new here.new ≡ delivered wait.old here.old msg }
{
    if msg.stamp > STAMP_LIMIT {
        return None;
    }
    deliver_kind(wait, here, msg, Kind::try_from(msg.kind).ok()?)
}
