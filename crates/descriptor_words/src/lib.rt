// The words that a descriptor vector keeps in its memory, and the memory seen through them.
#![tactic(auto)]

mod access;
mod cell;
mod parts;

pub use access::{Access, Found, perform};
pub use cell::{Cell, Status};
