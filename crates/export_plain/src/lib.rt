// Functions on plain values for C and Rust. What a call tells beside its number goes to a lent row of numbers.
#![tactic(auto)]

mod answers;
mod entries;
mod error_lists;
mod headers;
mod odometers;
mod steps;
mod texts;

pub use answers::{boherlin_delivered, boherlin_is_sound, boherlin_told};
pub use entries::{
    boherlin_entry_at, boherlin_next_entry, boherlin_value_at, boherlin_write_entry,
};
pub use error_lists::{boherlin_code_at, boherlin_count_codes, boherlin_meaning_of};
pub use headers::{
    boherlin_first_number, boherlin_gap, boherlin_next_number, boherlin_read_header,
    boherlin_write_header,
};
pub use odometers::{
    boherlin_distance, boherlin_fresh_odometer, boherlin_hear, boherlin_hear_answer,
    boherlin_total_in,
};
pub use steps::{boherlin_slot, boherlin_step_in};
pub use texts::{boherlin_heading, boherlin_line};
