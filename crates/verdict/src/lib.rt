// The tests that come before a channel is asked: 23, 24, 2, null, 22, 4, 3, 9. And what a receiver answers.
#![tactic(auto)]

mod answers;
mod verdicts;

pub use answers::{Answer, Kind, delivered};
pub use verdicts::judge;

// The largest L, and how many channels there are.
#[derive(Clone, Copy, Debug, PartialEq, Eq)]
pub struct Settings {
    pub limit: usize,
    pub count: usize,
}
