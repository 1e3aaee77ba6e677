//! Tests of the crates below the search: sets of bytes and of strings, expressions, automata, and lines; walks, over
//! trees in memory and over the system's; and what threads share: boards, trays, and the allocator that refuses
//! requests.
#![tactic(auto)]

#[cfg(test)]
mod board;
#[cfg(test)]
mod bytes;
#[cfg(test)]
mod cutter;
#[cfg(test)]
mod disk;
#[cfg(test)]
mod lines;
#[cfg(test)]
mod literal;
#[cfg(test)]
mod machine;
#[cfg(test)]
mod memory;
#[cfg(test)]
mod refused;
#[cfg(test)]
mod requests;
#[cfg(test)]
mod rows;
#[cfg(test)]
mod strings;
#[cfg(test)]
mod syntax;
#[cfg(test)]
mod tray;
