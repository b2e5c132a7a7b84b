// An index of an advertisement for C and Rust, lent as its parts: three arrays and two numbers.
#![tactic(auto)]

mod findings;
mod growth;
mod parts;

pub use findings::{boherlin_find_tag, boherlin_tag_value};
pub use growth::{boherlin_build_index, boherlin_extend_index};
