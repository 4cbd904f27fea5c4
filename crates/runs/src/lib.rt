//! A whole line of calls in one: it makes a cache of the parts that it is given, does a list of asks of any length and any content, keeps
//! the leases meanwhile, and gives back at the end what is still out. Its contract is the whole promise of that line, with no premise
//! about lines. It depends on the crate `cache` and on what that is built on.
#![tactic(auto)]

mod asks;
mod calls;
mod serving;
mod whole;

pub use asks::{Ask, Happening};
pub use whole::{Finished, NoRoom, run, run_in};
