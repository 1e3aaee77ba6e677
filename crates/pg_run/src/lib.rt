//! The run over any files: reads them, has their blocks searched and writes the output.
//!
//! [`run`] asks its files one after another, reads each as far as that matters, has a [`BlockSearch`] search blocks at
//! once or by rounds of several threads, and tells of names that give no file. Its contract says which bytes were
//! written and which lines were told, also where it breaks off. How lines are found it doesn't know.
#![tactic(auto)]

mod engine;
mod fault;
pub mod laws;
mod pace;
mod reading;
mod room;
mod running;
mod setup;

pub use fault::RunFault;
pub use pg_round::BlockSearch;
pub use room::has_room_for;
pub use running::run;
pub use setup::Setup;
