ghost use Rattle.std.specs.Prelude.{◌≡◌, ◌<◌, ◌≤◌, true, length, is_ok, IfOk, IfErr};
ghost use Rattle.fabric.specs.declared.fault.FabricFault.TheVariants.{NoLane};
ghost use Rattle.fabric.specs.Lanes.{capacity_of, messages_of, put_answer, take_answer};
ghost use Rattle.fabric.specs.Backing.{put_on, take_on, after_put, after_take};
ghost use Rattle.queues.specs.Rows.{span_of, place, HasSpace, HasMessage};
ghost use Rattle.queues.specs.Model.{slots_lanes, slots_model};

use crate::rows::Span;
use crate::slots::Slots;
use fabric::{FabricFault, Message};

// Puts a message on a lane, as a fabric does.
pub fn put<S: Slots>(slots: &mut S, lane: usize, msg: Message) -> Result<(), FabricFault>
    ensures lender { S.Slots.lender slots.new ≡ S.Slots.lender slots.old }
    ensures answer { result ≡ put_answer (slots_lanes S.Slots slots.old) lane }
    ensures after { slots_model S.Slots slots.new ≡ after_put S.Slots.backing result (slots_model S.Slots slots.old) lane msg }
{
    check_put(slots, lane)?;
    append(slots, lane, msg);
    Ok(())
}

// Takes the first message of a lane, as a fabric does.
pub fn take<S: Slots>(slots: &mut S, lane: usize) -> Result<Message, FabricFault>
    ensures lender { S.Slots.lender slots.new ≡ S.Slots.lender slots.old }
    ensures answer { result ≡ take_answer (slots_lanes S.Slots slots.old) lane }
    ensures after { slots_model S.Slots slots.new ≡ after_take S.Slots.backing result (slots_model S.Slots slots.old) lane }
{
    let msg = look(slots, lane)?;
    advance(slots, lane);
    Ok(msg)
}

// The first message of a lane; refuses as take does.
pub fn look<S: Slots>(slots: &S, lane: usize) -> Result<Message, FabricFault>
    ensures answer { result ≡ take_answer (slots_lanes S.Slots slots.now) lane }
    ensures waits { is_ok result ≡ true → HasMessage (S.Slots.rows slots.now) lane }
{
    let span = span(slots, lane)?;
    if span.waiting == 0 {
        return Err(FabricFault::Empty(lane));
    }
    Ok(slots.read(place(slots, lane, span.first)))
}

// How many lanes there are.
#[tactic(auto, using(fabric::proofs::Queue::lanes_length))]
pub fn lane_count<S: Slots>(slots: &S) -> usize
    ensures { result ≡ length (slots_lanes S.Slots slots.now) }
{
    slots.rows().lanes
}

// How many messages a lane can hold; 0 where there is no such lane.
pub fn capacity<S: Slots>(slots: &S, lane: usize) -> usize
    ensures { result ≡ capacity_of (slots_lanes S.Slots slots.now) lane }
{
    span(slots, lane).map_or(0, |_| slots.lane_len())
}

// How many messages a lane holds; 0 where there is no such lane.
pub fn waiting<S: Slots>(slots: &S, lane: usize) -> usize
    ensures { result ≡ length (messages_of (slots_lanes S.Slots slots.now) lane) }
{
    span(slots, lane).map_or(0, |span| span.waiting)
}

// Which slots of a lane are in use, if there is such a lane.
fn span<S: Slots>(slots: &S, lane: usize) -> Result<Span, FabricFault>
    ensures there { IfOk result (λ span. (lane < (S.Slots.rows slots.now).lanes) × (span ≡ span_of (S.Slots.rows slots.now) lane)) }
    ensures none { IfErr result (λ e. ((S.Slots.rows slots.now).lanes ≤ lane) × (e ≡ NoLane lane)) }
{
    let rows = slots.rows();
    if lane >= rows.lanes {
        return Err(FabricFault::NoLane(lane));
    }
    Ok(rows.spans[lane])
}

// The slot of a lane that comes `after` slots after its first one; after the last comes the first.
fn place<S: Slots>(slots: &S, lane: usize, after: usize) -> usize
    requires { lane < (S.Slots.rows slots.now).lanes }
    ensures place { result ≡ place (S.Slots.rows slots.now) lane after }
    ensures within { result < S.Slots.room slots.now }
{
    let capacity = slots.lane_len();
    capacity * lane + after % capacity
}

// Refuses as put does.
fn check_put<S: Slots>(slots: &S, lane: usize) -> Result<(), FabricFault>
    ensures answer { result ≡ put_answer (slots_lanes S.Slots slots.now) lane }
    ensures space { is_ok result ≡ true → HasSpace (S.Slots.rows slots.now) lane }
{
    let span = span(slots, lane)?;
    if span.waiting >= slots.lane_len() {
        return Err(FabricFault::Full(lane));
    }
    Ok(())
}

// Writes the slot after those in use.
fn append<S: Slots>(slots: &mut S, lane: usize, msg: Message)
    requires { HasSpace (S.Slots.rows slots.old) lane }
    ensures lender { S.Slots.lender slots.new ≡ S.Slots.lender slots.old }
    ensures after { slots_model S.Slots slots.new ≡ put_on S.Slots.backing (slots_model S.Slots slots.old) lane msg }
{
    let span = slots.rows().spans[lane];
    slots.write(place(slots, lane, span.first + span.waiting), msg);
    let more = Span {
        first: span.first,
        waiting: span.waiting + 1,
    };
    slots.set_span(lane, more);
}

// Moves the first slot in use on.
fn advance<S: Slots>(slots: &mut S, lane: usize)
    requires { HasMessage (S.Slots.rows slots.old) lane }
    ensures lender { S.Slots.lender slots.new ≡ S.Slots.lender slots.old }
    ensures after { slots_model S.Slots slots.new ≡ take_on S.Slots.backing (slots_model S.Slots slots.old) lane }
{
    let span = slots.rows().spans[lane];
    let less = Span {
        first: (span.first + 1) % slots.lane_len(),
        waiting: span.waiting - 1,
    };
    slots.set_span(lane, less);
}
