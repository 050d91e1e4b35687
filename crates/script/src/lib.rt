// A script's bytes, read into a header and typed lines.
#![tactic(auto)]

mod commands;
mod examples;
mod fault;
mod fields;
mod headers;
mod lines;
mod numbers;
mod opening;
mod read_item;
mod texts;

pub use commands::Command;
pub use examples::examples_hold;
pub use fault::Fault;
pub use headers::{ContainerChoice, Header, KindChoice, MemoryChoice};
pub use lines::{Line, Lines};
pub use opening::{Script, open};
pub use read_item::ReadItem;
