//! Tests of rounds of blocks that threads search.
#![tactic(auto)]

#[cfg(test)]
mod empty_files;
#[cfg(test)]
mod fixtures;
#[cfg(test)]
mod reading;
#[cfg(test)]
mod rounds;
#[cfg(test)]
mod runs;
