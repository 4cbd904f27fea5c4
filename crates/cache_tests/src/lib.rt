//! Tests of the cache: tables of calls with the answers expected of them, run against caches of every make, hashed and numbered, over region
//! numbers and part names, with the pile and the flat order. It knows caches by their public contracts alone. Depends on the crates that a
//! cache is made of and on `borrowers`, and holds nothing but tests.
#![tactic(auto)]

#[cfg(test)]
mod calls;
#[cfg(test)]
mod loans;
#[cfg(test)]
mod table;
#[cfg(test)]
mod tests;
