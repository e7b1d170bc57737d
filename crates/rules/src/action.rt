use crate::call::Call;

// What a list asks of a board: a call, or that a shim be claimed or handed back.
#[derive(Clone, Copy)]
pub enum Action {
    Call(Call),
    Claim { shim: u32 },
    HandBack { shim: u32 },
}
