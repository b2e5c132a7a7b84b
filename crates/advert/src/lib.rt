// What stands at a place of an advertisement: an entry is tag, length and value.
#![tactic(auto)]

mod entry;
mod tags;

pub use entry::{Entry, entry_at, value_at};
pub use tags::Mark;
