//! Replays of traces: a cache is made of the parts given, each row's key is got and, if absent, kept, and the report says what the rows
//! came to. A replay takes any directory over region numbers and any order; what the program `regtrace` decides is here too, over the
//! pile and a hashed directory. Depends on keys, orders, directories, `promises`, `cache` and `traces`.
#![tactic(auto)]

mod example;
mod regtrace;
mod replaying;
mod visits;

pub use example::example_stands;
pub use regtrace::{Printout, pile_stands, run_regtrace};
pub use replaying::{Replayed, replay};
