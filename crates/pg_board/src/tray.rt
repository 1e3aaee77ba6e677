//! Results on their way from several threads to one.
ghost use Rattle.std.specs.Prelude.{◌≡◌, ◌<◌, ◌≤◌, [], ◌∷◌, ◌++◌, All, vec_len, map, replicate};
ghost use Rattle.std.specs.Prelude.{IfOk, IfErr, IfSome, IfNone, OnOk};
ghost use Rattle.crossbeam_queue.specs.SegTies.{IsSegPassOf};
ghost use Rattle.pg_board.specs.Tray.{put_view, take_view, delivered};
ghost use Rattle.pg_board.specs.TrayRule.{lists_of};

use crate::delivered::TrayRest;
use crate::pass::{PutPass, TakePass, Ticket};
use crate::puts::{Entry, MergeRule, NewPass, PassBack, PassView, Put, Take};
use crossbeam_queue::RuledSegQueue;
use std::alloc::{AllocError, Allocator, Global};
use std::marker::Model;
use std::sync::Wait;

pub(crate) type Queue<T, A> = RuledSegQueue<Entry<T>, PassView<T>, MergeRule, A>;

/// Values on their way from several threads, each with a [`PutPass`], to the one that has the [`TakePass`].
///
/// It is a queue with no bound and no lock. Contracts see which tray it is.
pub struct Tray<T, A: Allocator = Global> {
    pub(crate) queue: Queue<T, A>,
}

impl<T, A: Allocator> Model for Tray<T, A> {
    ghost use Rattle.crossbeam_queue.specs.SegTies.{SegId, seg_id_coded};

    ghost Value = { SegId A };

    ghost coded = { seg_id_coded A.code };

    ghost view = { λ t. t.queue };
}

/// Brings all passes back to the one ticket, in their order.
fn gather<T: Drop, A: Allocator>(
    queue: &Queue<T, A>,
    mut passes: Vec<PutPass<T, A>, A>,
    ticket: &mut Ticket<T, A>,
)
    requires ticket { IsSegPassOf queue.now ticket.old
        × (ticket.old.me.view.client.takers ≡ 1) × (ticket.old.me.view.client.passes ≡ []) }
    requires all { All (λ p. p.tray ≡ queue.now) passes.items }
    ensures ticket { IsSegPassOf queue.now ticket.new × (ticket.new.me.view.client.takers ≡ 1)
        × (ticket.new.me.view.client.made ≡ ticket.old.me.view.client.made)
        × (ticket.new.me.view.client.taken ≡ ticket.old.me.view.client.taken) }
    ensures lists { lists_of ticket.new.me.view.client.passes ≡ map (λ p. p.put) passes.items }
{
    while let Some(pass) = passes.pop() {
        let back = pass.into_ticket();
        queue.absorb::<PassBack>(ticket, back);
    }
}

impl<T: Drop, A: Allocator + Copy> Tray<T, A> {
    /// A tray with a put pass for each worker, 1 to 65, and the one pass that takes. Nothing was put.
    ///
    /// # Errors
    /// Only where a request for memory was refused.
    pub fn open(
        alloc: A,
        workers: u32,
    ) -> Result<(Tray<T, A>, Vec<PutPass<T, A>, A>, TakePass<T, A>), AllocError>
        requires { (0 < workers) × (workers ≤ 65) }
        ensures passes { IfOk result (λ r. r.1.items ≡ replicate workers (put_view r.0 [])) }
        ensures take { IfOk result (λ r. r.2 ≡ take_view r.0 workers []) }
    {
        let mut passes = Vec::with_capacity(alloc, workers as usize)?;
        let (queue, mut ticket) = Queue::<T, A>::with_rule(alloc)?;
        for number in 0..workers {
            let new = queue.another::<NewPass>(&mut ticket);
            passes.push_reserved(PutPass {
                ticket: new,
                number,
            });
        }
        Ok((Tray { queue }, passes, TakePass { ticket }))
    }
}

impl<T: Drop, A: Allocator> Tray<T, A> {
    /// Puts a value at the back.
    ///
    /// # Errors
    /// The value comes back, and nothing has changed. As long as fewer than 2^61 values were put, this comes only where
    /// a request for memory was refused.
    pub fn put<R: Wait>(&self, rt: &R, pass: &mut PutPass<T, A>, value: T) -> Result<(), T>
        requires { pass.old.tray ≡ self.now }
        ensures tray { pass.new.tray ≡ self.now }
        ensures ok { OnOk result (pass.new.put ≡ pass.old.put ++ value ∷ []) }
        ensures err { IfErr result (λ x. (x ≡ value) × (pass.new.put ≡ pass.old.put)) }
    {
        let entry = Entry {
            pass: pass.number,
            value,
        };
        match self.queue.push_as::<Put, R>(rt, &mut pass.ticket, entry) {
            Ok(()) => Ok(()),
            Err(Entry { pass: _, value }) => Err(value),
        }
    }

    /// Takes the value at the front. `None` comes only where the tray was empty at some moment of the call.
    pub fn take<R: Wait>(&self, rt: &R, pass: &mut TakePass<T, A>) -> Option<T>
        requires { pass.old.tray ≡ self.now }
        ensures tray { (pass.new.tray ≡ self.now) × (pass.new.workers ≡ pass.old.workers) }
        ensures some { IfSome result (λ x. pass.new.taken ≡ pass.old.taken ++ x ∷ []) }
        ensures none { IfNone result (pass.new.taken ≡ pass.old.taken) }
    {
        let Entry { pass: _, value } = self.queue.pop_as::<Take, R>(rt, &mut pass.ticket)?;
        Some(value)
    }

    /// Ends the tray with all its passes, in any order. What was taken, and then all that is handed out, is a merge
    /// of what the passes put.
    pub fn close(self, passes: Vec<PutPass<T, A>, A>, pass: TakePass<T, A>) -> TrayRest<T, A>
        requires take { pass.tray ≡ self }
        requires all { All (λ p. p.tray ≡ self) passes.items × (vec_len passes ≡ pass.workers) }
        ensures { result ≡ delivered (map (λ p. p.put) passes.items) pass.taken }
    {
        let Tray { queue } = self;
        let TakePass { mut ticket } = pass;
        gather(&queue, passes, &mut ticket);
        TrayRest { queue, ticket }
    }
}

impl<T: Drop, A: Allocator> Drop for Tray<T, A> {
    fn drop(self) {
        let Tray { queue } = self;
        queue.destroy();
    }
}
