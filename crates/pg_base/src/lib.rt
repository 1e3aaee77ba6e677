//! What all parts of a run share: the bytes that it reads and writes, as contracts see them.
//!
//! A [`Sink`] takes the bytes of an output and tells contracts which it took and how often a write failed: [`MemSink`]
//! is one over memory and [`Out`] one over a writer. A [`History`] is a list that contracts alone can read, so that
//! values over the real world tell what happened to them and take no memory for it. A [`Cause`] says why a name gives
//! no file, and [`tell_cause`] writes its line. Nothing here knows of lines or expressions.
#![tactic(auto)]

mod cause;
mod history;
mod mem_sink;
mod out;
mod sink;
mod telling;

pub use cause::Cause;
pub use history::History;
pub use mem_sink::MemSink;
pub use out::Out;
pub use sink::{Sink, WriteError, write_all};
pub use telling::{tell, tell_cause};
