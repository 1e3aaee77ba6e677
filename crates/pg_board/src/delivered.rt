//! What is left of a tray once all its passes are back.
ghost use Rattle.std.specs.Prelude.{◌≡◌, [], ◌∷◌, ◌++◌, IfSome, IfNone};
ghost use Rattle.pg_board.specs.Merge.{IsMerge, BeginsMerge};
ghost use Rattle.pg_board.specs.Tray.{delivered};

use crate::pass::Ticket;
use crate::puts::{Entry, HandOut};
use crate::tray::Queue;
use std::alloc::{Allocator, Global};
use std::marker::Model;
use std::sync::Wait;

/// What is left of a closed tray, and is handed out one by one.
///
/// Contracts see what each pass put, and what was taken or handed out, in order.
pub struct TrayRest<T, A: Allocator = Global> {
    pub(crate) queue: Queue<T, A>,
    pub(crate) ticket: Ticket<T, A>,
}

impl<T, A: Allocator> Model for TrayRest<T, A> {
    ghost use Rattle.std.specs.Prelude.{◌≡◌, None, length};
    ghost use Rattle.pg_board.specs.Tray.{TrayRestView, delivered};
    ghost use Rattle.pg_board.specs.TrayRule.{lists_of, values_in};

    ghost Value = { TrayRestView T };

    ghost view = { λ d. delivered (lists_of d.ticket.me.view.client.passes) (values_in d.ticket.me.view.client.taken) };

    ghost invariant = { λ d. (d.ticket.web ≡ d.queue.web) × (d.ticket.heap ≡ d.queue.heap)
        × (d.ticket.me.hand ≡ None) × (d.ticket.me.spare ≡ None) × (d.ticket.me.view.client.takers ≡ 1)
        × (d.ticket.me.view.client.made ≡ length d.ticket.me.view.client.passes) };
}

impl<T: Drop, A: Allocator> TrayRest<T, A> {
    /// Hands out the next value that was left, in order. `None` comes exactly where all that was put was taken or
    /// handed out.
    pub fn next<R: Wait>(&mut self, rt: &R) -> Option<T>
        ensures some { IfSome result (λ x. self.new ≡ delivered self.old.lists (self.old.out ++ x ∷ [])) }
        ensures left { IfSome result (λ x. BeginsMerge self.old.lists (self.old.out ++ x ∷ [])) }
        ensures none { IfNone result ((self.new ≡ self.old) × IsMerge self.old.lists self.old.out) }
    {
        let Entry { pass: _, value } = self.queue.pop_as::<HandOut, R>(rt, &mut self.ticket)?;
        Some(value)
    }
}

impl<T: Drop, A: Allocator> Drop for TrayRest<T, A> {
    fn drop(self) {
        let TrayRest { queue, ticket: _ } = self;
        queue.destroy();
    }
}
