// The calls by name alone.
#[derive(Clone, Copy)]
pub enum Op {
    Load,
    Store,
    Fence,
    Evict,
    Up,
    Down,
}
