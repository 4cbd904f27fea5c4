//! Workers that repair a mesh region by region, over any cache: regions as triangles, edge collapse, and worker code that leases a region,
//! works on it and gives it back on every path. It depends on the cache, on region numbers, on the traits that a cache is built of and on
//! `borrowers`, and on no directory or order of its own; a region's bytes lie in a vector of fixed capacity of `arrayvec`.
#![tactic(auto)]

mod check;
mod day;
mod entry;
mod few;
mod log;
mod outcome;
mod region;
mod shift;
mod triangle;

pub use check::pointed_at;
pub use day::{Day, repair};
pub use entry::{Deed, Entry, Worker};
pub use log::Log;
pub use outcome::Outcome;
pub use region::{NoEdge, Region};
pub use triangle::{Edge, Triangle};
