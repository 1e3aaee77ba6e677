//! The search for a text over any files: compiles it to a query, and runs that.
//!
//! [`run`] compiles the text, has a run search the files by the query, and says which bytes were written and which
//! lines were told, also where it breaks off. [`GatedQuery`] is the query as a run asks it.
#![tactic(auto)]

mod fault;
mod gate;
mod gated;
mod running;

pub use fault::SearchFault;
pub use gate::{FreeGate, Gate};
pub use gated::GatedQuery;
pub use pg_run::{RunFault, Setup};
pub use running::run;
