//! Tests of keys and directories: tables of calls with the answers expected of them, run against both
//! directories and three key kinds, and the spread of homes. It knows the directories by their public
//! contracts alone. Depends on `keys` and `directories`, and holds nothing but tests.
#![tactic(auto)]

#[cfg(test)]
mod crowded;
#[cfg(test)]
mod names;
#[cfg(test)]
mod spread;
#[cfg(test)]
mod table;
#[cfg(test)]
mod tests;
