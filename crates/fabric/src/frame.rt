ghost use Rattle.std.specs.Prelude.{◌≡◌};
ghost use Rattle.fabric.specs.Frame.{frame_of, message_of};

use crate::message::{Message, Word};
use std::mem::size_of;

// Kind, line, mark and sender take a byte each.
const HEADER_LEN: usize = 4;

const WORD_LEN: usize = size_of::<Word>();

const STAMP_LEN: usize = size_of::<u32>();

// The bytes of a frame: header, value, stamp; numbers with the high byte first.
pub const FRAME_LEN: usize = HEADER_LEN + WORD_LEN + STAMP_LEN;

// The frame of a message.
pub fn encode(msg: Message) -> [u8; FRAME_LEN]
    ensures bytes { result ≡ frame_of msg }
    ensures back { message_of result ≡ msg }
{
    let mut frame = [0; FRAME_LEN];
    frame[..HEADER_LEN].copy_from_slice(&[msg.kind, msg.line, msg.mark, msg.sender]);
    frame[HEADER_LEN..HEADER_LEN + WORD_LEN].copy_from_slice(&msg.value.to_be_bytes());
    frame[HEADER_LEN + WORD_LEN..].copy_from_slice(&msg.stamp.to_be_bytes());
    frame
}

// The message of a frame.
pub fn decode(frame: &[u8; FRAME_LEN]) -> Message
    ensures value { result ≡ message_of frame.now }
    ensures back { frame_of result ≡ frame.now }
{
    // The lengths are constants: no unwrap can fail.
    let (&[kind, line, mark, sender], numbers) = frame.split_first_chunk::<HEADER_LEN>().unwrap();
    let (value, stamp) = numbers.split_at(WORD_LEN);
    Message {
        kind,
        line,
        mark,
        sender,
        value: Word::from_be_bytes(value.try_into().unwrap()),
        stamp: u32::from_be_bytes(stamp.try_into().unwrap()),
    }
}
