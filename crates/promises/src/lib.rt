//! What a cache answers, what it remembers, and what it promises over every line of calls. This crate is almost all definitions and
//! proofs: the answers' own types, the state of a cache as values, the step that each call makes, GreedyDual in its own words, rivals,
//! and the promises with their proofs. It depends on the meaning of keys, directories and orders, and knows no implementation of them.
#![tactic(auto)]

mod answers;
mod records;
mod stands;

pub use answers::{Evicted, Kept, Presence, Refusal};
pub use records::{Lending, Record, Table, Ticket};
pub use stands::{examples_stand, promises_stand};
