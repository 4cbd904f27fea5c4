//! A cache of regions over a slab that the host owns: it knows which key is at which slot, which slots wait and which are out on lease, and
//! answers every call by the steps that the crate `promises` defines. It depends on the traits of keys, directories and orders and on
//! `promises`, and on no implementation of them.
#![tactic(auto)]

mod bytes;
mod cache;
mod declined;
mod lease;

pub use cache::Cache;
pub use declined::Declined;
pub use lease::Lease;
pub use promises::{Evicted, Kept, Lending, Presence, Record, Refusal, Table, Ticket};
