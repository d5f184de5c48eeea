//! What a shelf is and keeps: definitions and theorems. The code stands in `places` and `shelf`.
#![tactic(auto)]

mod entry;

pub use entry::Entry;
