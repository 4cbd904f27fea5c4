//! A test of a whole run: a list of asks with what is expected to be told of each, over a cache of two slots. It knows runs by their public
//! contract alone. Depends on the crates that a cache is made of and on `runs`, and holds nothing but tests.
#![tactic(auto)]

#[cfg(test)]
mod alone;
#[cfg(test)]
mod tests;
