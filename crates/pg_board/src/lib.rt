//! A board of numbers that threads draw, each once, and a tray that brings their results to one thread.
//!
//! The threads of a pool take their jobs by number: each draws from one [`Board`] with a [`Seat`] of its own until none
//! is left. What it makes of a job it puts into one [`Tray`] with a [`PutPass`] of its own, and one thread takes the
//! results with the [`TakePass`] while the others go on. No number is drawn twice or left out, and no result is lost,
//! doubled or taken for another's, whatever the order in which the threads run: [`Board::close`], [`Tray::close`] and
//! [`TrayRest::next`] tell it of all seats and passes.
#![tactic(auto)]

mod board;
mod delivered;
mod draws;
mod laws;
mod locks;
mod pass;
mod puts;
mod seat;
mod tray;

pub use board::{Board, DrawnNumbers};
pub use delivered::TrayRest;
pub use laws::{draws_are_complete, merges_are_whole};
pub use locks::trays_have_no_lock;
pub use pass::{PutPass, TakePass};
pub use seat::Seat;
pub use tray::Tray;
