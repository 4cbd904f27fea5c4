//! Keys: what tells one region of a mesh from another, and where the look-up of it begins.
//! Two kinds: region numbers and part names. Depends on the standard library alone.
#![tactic(auto)]

mod homes;
mod key;
mod letters;
mod name;
mod region;

pub use key::Key;
pub use name::PartName;
pub use region::RegionNumber;
