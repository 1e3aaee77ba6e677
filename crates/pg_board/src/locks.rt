//! What trays and their passes are made of.
use crate::puts::{Entry, MergeRule, PassView};
use crate::{PutPass, TakePass, Tray, TrayRest};
use crossbeam_queue::{RuledSegQueue, SegPass};
use std::alloc::Allocator;

/// Each field of a tray and of its passes has the type that is named here, and there is no other field: so there is no
/// lock. A call does nothing.
pub fn trays_have_no_lock<T, A: Allocator>(
    tray: &Tray<T, A>,
    put: &PutPass<T, A>,
    take: &TakePass<T, A>,
    left: &TrayRest<T, A>,
) {
    let Tray { queue } = tray;
    let _queue: &RuledSegQueue<Entry<T>, PassView<T>, MergeRule, A> = queue;
    let PutPass { ticket, number } = put;
    let _ticket: &SegPass<Entry<T>, PassView<T>, A> = ticket;
    let _number: &u32 = number;
    let TakePass { ticket } = take;
    let _ticket: &SegPass<Entry<T>, PassView<T>, A> = ticket;
    let TrayRest { queue, ticket } = left;
    let _queue: &RuledSegQueue<Entry<T>, PassView<T>, MergeRule, A> = queue;
    let _ticket: &SegPass<Entry<T>, PassView<T>, A> = ticket;
}
