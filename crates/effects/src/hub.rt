ghost use Rattle.std.specs.Prelude.{◌≡◌, ◌<◌, true, false, Some, MatchOption, slice_set};
ghost use Rattle.rules.specs.Kinds.{kind_of};
ghost use Rattle.rules.specs.State.{stamp_limit, shares};
ghost use Rattle.rules.specs.Up.{goes_up, owes_ack, sent_if, ack_message, update_message, read_message, fenced_message, sent_by, hub_by};

use fabric::{MAX_SHIMS, Message};
use rules::{HubLine, Kind, STAMP_LIMIT, asks_sync, fence_request, is_sc, mark_strength};

// A message that the hub performs, its kind, and the hub's line that it names.
#[derive(Clone, Copy)]
pub struct Request<'a> {
    pub msg: Message,
    pub kind: Kind,
    pub hub: &'a HubLine,
    ghost goes: { goes_up hub.now (Some kind) ≡ true },
}

impl<'a> Request<'a> {
    // What a message asks of the hub's line that it names; none where the hub does not perform it.
    pub fn of(hub: &'a HubLine, msg: Message) -> Option<Request<'a>>
        ensures { MatchOption result (goes_up hub.now (kind_of msg.kind) ≡ false) (λ r. (r.msg ≡ msg) × (r.hub.now ≡ hub.now) × (kind_of msg.kind ≡ Some r.kind)) }
    {
        let kind = Kind::try_from(msg.kind).ok()?;
        if !goes_up(hub, kind) {
            return None;
        }
        Some(Request { msg, kind, hub })
    }

    // What a shim is sent when the hub performs the message.
    pub fn reply(self, shim: usize) -> Option<Message>
        ensures { result ≡ sent_by self.entry.hub.now self.entry.msg shim self.entry.kind }
    {
        let own = self.msg.sender as usize == shim;
        match self.kind {
            Kind::Write if own => write_ack(self.hub, self.msg),
            Kind::Write if shares(self.hub, shim) => Some(update(self.hub, self.msg)),
            Kind::ReadRequest if own => Some(read_response(self.hub, self.msg)),
            Kind::FenceRequest if own => Some(fence_message(Kind::FenceResponse, self.msg)),
            Kind::FenceRequest => Some(fence_message(Kind::FenceRequest, self.msg)),
            _ => None,
        }
    }

    // The hub's line once the message is performed.
    pub fn performed(self) -> HubLine
        ensures { result ≡ hub_by self.entry.hub.now self.entry.msg self.entry.kind }
    {
        let hub = *self.hub;
        let sender = self.msg.sender as usize;
        match self.kind {
            Kind::Write => HubLine {
                word: self.msg.value,
                stamp: hub.stamp + 1,
                sharers: if asks_sync(self.msg.mark) {
                    with_sharer(hub.sharers, sender, true)
                } else {
                    hub.sharers
                },
            },
            Kind::ReadRequest => HubLine {
                sharers: with_sharer(hub.sharers, sender, true),
                ..hub
            },
            Kind::Drop => HubLine {
                sharers: with_sharer(hub.sharers, sender, false),
                ..hub
            },
            _ => hub,
        }
    }
}

// Whether the hub performs messages of this kind at this line.
fn goes_up(hub: &HubLine, kind: Kind) -> bool
    ensures { result ≡ goes_up hub.now (Some kind) }
{
    match kind {
        Kind::Write => hub.stamp < STAMP_LIMIT,
        Kind::ReadRequest | Kind::FenceRequest | Kind::Drop => true,
        Kind::ReadResponse | Kind::FenceResponse | Kind::WriteAck => false,
    }
}

// Whether a shim shares the line.
fn shares(hub: &HubLine, shim: usize) -> bool
    ensures { result ≡ shares hub.now shim }
{
    hub.sharers.get(shim).copied().unwrap_or(false)
}

// The acknowledgement that a store owes its sender: it carries the stamp before the store.
fn write_ack(hub: &HubLine, msg: Message) -> Option<Message>
    ensures { result ≡ sent_if (owes_ack msg.mark) (ack_message hub.now msg) }
{
    let owed = asks_sync(msg.mark) || is_sc(msg.mark);
    owed.then_some(Message {
        kind: Kind::WriteAck.into(),
        value: 0,
        stamp: hub.stamp,
        ..msg
    })
}

// The update that a store sends to every other sharer.
fn update(hub: &HubLine, msg: Message) -> Message
    requires { hub.now.stamp < stamp_limit }
    ensures { result ≡ update_message hub.now msg }
{
    Message {
        kind: Kind::Write.into(),
        mark: mark_strength(msg.mark),
        stamp: hub.stamp + 1,
        ..msg
    }
}

// The word that a load waits for.
fn read_response(hub: &HubLine, msg: Message) -> Message
    ensures { result ≡ read_message hub.now msg }
{
    Message {
        kind: Kind::ReadResponse.into(),
        value: hub.word,
        stamp: hub.stamp,
        ..msg
    }
}

// What a fence sends to its own shim, and to the others.
fn fence_message(kind: Kind, msg: Message) -> Message
    ensures { result ≡ fenced_message kind msg }
{
    Message {
        kind: kind.into(),
        ..fence_request(msg.sender)
    }
}

// The sharers, with one of them in or out. By index: after a write through `get_mut` the proof lacks what the other entries are.
#[tactic(auto, using(std::proofs::lemmas::List::set_past))]
fn with_sharer(sharers: [bool; MAX_SHIMS], shim: usize, shares: bool) -> [bool; MAX_SHIMS]
    ensures { result ≡ slice_set sharers shim shares }
{
    let mut next = sharers;
    if shim < MAX_SHIMS {
        next[shim] = shares;
    }
    next
}
