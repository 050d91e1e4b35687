// Plays a script: bytes in, a listing or the first fault out.
#![tactic(auto)]

mod benches;
mod lines;

pub use benches::run_script;
