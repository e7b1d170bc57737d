// The value that a message carries: its width stands here alone.
pub type Word = u32;

// One message of a lane.
#[derive(Clone, Copy, PartialEq, Eq, Debug)]
pub struct Message {
    pub kind: u8,
    pub line: u8,
    pub mark: u8,
    pub sender: u8,
    pub value: Word,
    pub stamp: u32,
}
