// A log as a listing: a line for each record, into an output of limited length.
#![tactic(auto)]

mod decimals;
mod logs;
mod records;
mod texts;
mod write_item;

pub use logs::list;
pub use write_item::{LONGEST_ITEM, WriteItem};
