// The transport for C and Rust: functions on numbers and slices. A state is lent as a row of numbers, so that any state
// can be built.
#![tactic(auto)]

mod fresh;
mod listeners;
mod messages;
mod numbers;
mod permits;
mod places;
mod readers;
mod receivers;
mod senders;

pub use fresh::{boherlin_fresh_receiver, boherlin_fresh_sender, boherlin_outside};
pub use listeners::boherlin_listen;
pub use messages::{boherlin_write, boherlin_write_notice, boherlin_write_query, lent_back};
pub use numbers::{
    channel_from, channel_numbers, count_number, count_of, flag_number, flag_of, underway_numbers,
    underway_of,
};
pub use permits::{boherlin_grant, boherlin_permitted_message, boherlin_permitted_send};
pub use readers::{boherlin_read, boherlin_step};
pub use receivers::{answer_numbers, boherlin_clear_counts, boherlin_copy_counts, boherlin_take};
pub use senders::{boherlin_abandon, boherlin_send};
