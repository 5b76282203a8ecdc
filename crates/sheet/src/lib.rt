// The sheet: what its bytes mean, the one reader of its entries and actions, and accepted sheets with their machines.
// Definitions: specs/Format.antt, in document 01's order.
#![tactic(auto)]

mod accepted;
mod entry;
pub mod fields;

pub use accepted::{Machine, Sheet};
pub use entry::Entry;
