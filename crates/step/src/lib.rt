// What a transfer does to its channel, to the cargo under way and to the buffer: for receivers, and for loops and doors
// that hold a receiver's parts.
#![tactic(auto)]

mod copies;
mod steps;

pub use steps::{Taken, Went, channel_of, step_in, taken_by};
