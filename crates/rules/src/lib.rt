// The words of the protocol (kinds, strengths, calls, answers, refusals), the state of a board, and the messages that shims send.
// The rules of the calls are definitions: specs/ has a file for each.
#![tactic(auto)]

mod action;
mod answer;
mod call;
mod event;
mod kind;
mod refusal;
mod request;
mod size;
mod state;
mod strength;
mod unknown;

pub use action::Action;
pub use answer::{Answer, Outcome};
pub use call::Call;
pub use event::Event;
pub use kind::Kind;
pub use refusal::Refusal;
pub use request::{drop_request, fence_request, load_request, store_request};
pub use size::{MAX_LINES, is_board_size};
pub use state::{Held, HubLine, STAMP_LIMIT, Shim, Size, State, Wait};
pub use strength::{Access, Strength, asks_sync, is_sc, mark_strength};
pub use unknown::UnknownNumber;
