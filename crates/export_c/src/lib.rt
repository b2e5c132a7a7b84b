// The transport for C: each function of `export` that C calls, with its clauses word for word. A library's own functions are not
// exported.
#![tactic(auto)]

mod fresh;
mod listeners;
mod messages;
mod permits;
mod readers;
mod receivers;
mod senders;

pub use fresh::{boherlin_fresh_receiver, boherlin_fresh_sender, boherlin_outside};
pub use listeners::boherlin_listen;
pub use messages::{boherlin_write, boherlin_write_notice, boherlin_write_query};
pub use permits::{boherlin_grant, boherlin_permitted_message, boherlin_permitted_send};
pub use readers::{boherlin_read, boherlin_step};
pub use receivers::{boherlin_clear_counts, boherlin_copy_counts, boherlin_take};
pub use senders::{boherlin_abandon, boherlin_send};
