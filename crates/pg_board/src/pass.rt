//! The rights to put and to take.
ghost use Rattle.std.specs.Prelude.{◌≡◌, ℕ, [], ◌∷◌};
ghost use Rattle.crossbeam_queue.specs.SegTies.{IsSegPassOf};

use crate::puts::{Entry, PassView};
use crossbeam_queue::SegPass;
use std::alloc::{Allocator, Global};
use std::marker::Model;

pub(crate) type Ticket<T, A> = SegPass<Entry<T>, PassView<T>, A>;

/// The right of one worker to put values into one tray.
///
/// Contracts see the tray, and what the pass put, in order.
#[derive(Drop)]
pub struct PutPass<T, A: Allocator = Global> {
    pub(crate) ticket: Ticket<T, A>,
    pub(crate) number: u32,
}

impl<T, A: Allocator> Model for PutPass<T, A> {
    ghost use Rattle.std.specs.Prelude.{◌≡◌, None, [], ◌∷◌};
    ghost use Rattle.pg_board.specs.Tray.{PutView, put_view};
    ghost use Rattle.pg_board.specs.TrayRule.{puts, first_values};

    ghost Value = { PutView T A };

    ghost view = { λ p. put_view record { web = p.ticket.web; heap = p.ticket.heap }
        (first_values p.ticket.me.view.client.passes) };

    ghost invariant = { λ p. (p.ticket.me.hand ≡ None) × (p.ticket.me.spare ≡ None)
        × (p.ticket.me.view.client.takers ≡ 0)
        × (p.ticket.me.view.client.passes ≡ puts p.number (first_values p.ticket.me.view.client.passes) ∷ []) };
}

impl<T, A: Allocator> PutPass<T, A> {
    ghost use Rattle.pg_board.specs.TrayRule.{puts};

    pub(crate) fn into_ticket(self) -> Ticket<T, A>
        ensures ticket { IsSegPassOf self.tray result × (result.me.view.client.takers ≡ 0) }
        ensures puts { (number : ℕ) × (result.me.view.client.passes ≡ puts number self.put ∷ []) }
    {
        let PutPass { ticket, number: _ } = self;
        ticket
    }
}

/// The right to take values from one tray.
///
/// Contracts see the tray, how many put passes it has, and what was taken, in order.
#[derive(Drop)]
pub struct TakePass<T, A: Allocator = Global> {
    pub(crate) ticket: Ticket<T, A>,
}

impl<T, A: Allocator> Model for TakePass<T, A> {
    ghost use Rattle.std.specs.Prelude.{◌≡◌, None, []};
    ghost use Rattle.pg_board.specs.Tray.{TakeView, take_view};
    ghost use Rattle.pg_board.specs.TrayRule.{values_in};

    ghost Value = { TakeView T A };

    ghost view = { λ p. take_view record { web = p.ticket.web; heap = p.ticket.heap }
        p.ticket.me.view.client.made (values_in p.ticket.me.view.client.taken) };

    ghost invariant = { λ p. (p.ticket.me.hand ≡ None) × (p.ticket.me.spare ≡ None)
        × (p.ticket.me.view.client.takers ≡ 1) × (p.ticket.me.view.client.passes ≡ []) };
}
