// A whole input in one call, for C: the loops that a program in Rattle would hold, and what they count.
#![tactic(auto)]

mod streams;
mod tallies;

pub use streams::{boherlin_tally_messages, boherlin_tally_stream};
