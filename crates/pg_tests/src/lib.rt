//! Tests of the search, the sequencer and the command: sinks, formats, refused memory, results in any order, command
//! lines.
#![tactic(auto)]

#[cfg(test)]
mod cases;
#[cfg(test)]
mod command;
#[cfg(test)]
mod cutter;
#[cfg(test)]
mod disk_store;
#[cfg(test)]
mod fixtures;
#[cfg(test)]
mod formats;
#[cfg(test)]
mod orders;
#[cfg(test)]
mod patterns;
#[cfg(test)]
mod planning;
#[cfg(test)]
mod run;
#[cfg(test)]
mod sequencer;
#[cfg(test)]
mod sinks;
