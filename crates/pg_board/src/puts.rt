//! What lies in a tray's queue and what is known beside its passes, and the rule of the queue.
use crossbeam_queue::protocol::{Join, Lesson, Outcome, Protocol, Split};
use std::collections::LinkedList;

/// A value in the queue, with the number of the pass that put it.
#[derive(Drop)]
pub struct Entry<T> {
    pub pass: u32,
    pub value: T,
}

/// What the pass of a number put, in order. No value of it is made.
pub struct Puts<T> {
    pub pass: u32,
    pub values: LinkedList<T>,
}

/// What is known beside a pass of the queue. No value of it is made.
pub struct PassView<T> {
    /// The put passes for which it stands, with what they put.
    pub passes: LinkedList<Puts<T>>,
    /// 1 for the one that takes, else 0.
    pub takers: u32,
    /// How many put passes were made, which the one that takes knows.
    pub made: u32,
    /// What was taken, in order, which the one that takes knows.
    pub taken: LinkedList<Entry<T>>,
}

/// What was taken, and then what the queue holds, is a merge of what the passes put.
pub struct MergeRule;

impl<T> Protocol<Entry<T>, PassView<T>> for MergeRule {
    ghost use Rattle.std.specs.Prelude.{[]};
    ghost use Rattle.pg_board.specs.TrayRule.{KeepsTray, pass_view};

    ghost holds = { KeepsTray };

    ghost first = { pass_view [] 1 0 [] };
}

/// A value is put.
pub struct Put;

impl<T> Outcome<Entry<T>, PassView<T>> for Put {
    ghost use Rattle.pg_board.specs.TrayRule.{PutOne};

    ghost then = { PutOne };
}

/// A value is taken while others may put.
pub struct Take;

impl<T> Outcome<Entry<T>, PassView<T>> for Take {
    ghost use Rattle.pg_board.specs.TrayRule.{TakeOne};

    ghost then = { TakeOne };
}

impl<T> Lesson<Entry<T>, PassView<T>> for Take {
    ghost use Rattle.std.specs.Prelude.{⊤};

    ghost fact = { λ v items. ⊤ };
}

/// A value is taken once all passes are back.
pub struct HandOut;

impl<T> Outcome<Entry<T>, PassView<T>> for HandOut {
    ghost use Rattle.pg_board.specs.TrayRule.{HandOutOne};

    ghost then = { HandOutOne };
}

impl<T> Lesson<Entry<T>, PassView<T>> for HandOut {
    ghost use Rattle.pg_board.specs.TrayRule.{IsWholeMerge};

    ghost fact = { IsWholeMerge };
}

/// One put pass more.
pub struct NewPass;

impl<T> Split<PassView<T>> for NewPass {
    ghost use Rattle.std.specs.Prelude.{◌+◌, [], ◌∷◌};
    ghost use Rattle.pg_board.specs.TrayRule.{pass_view, puts};

    ghost left = { λ v. pass_view v.passes v.takers (v.made + 1) v.taken };

    ghost right = { λ v. pass_view (puts v.made [] ∷ []) 0 0 [] };
}

/// A put pass comes back to the one that takes, in front of those that are back.
pub struct PassBack;

impl<T> Join<PassView<T>> for PassBack {
    ghost use Rattle.std.specs.Prelude.{◌++◌, []};
    ghost use Rattle.pg_board.specs.TrayRule.{pass_view};

    ghost both = { λ v u. pass_view (u.passes ++ v.passes) v.takers v.made v.taken };

    ghost spent = { pass_view [] 0 0 [] };
}
