//! The order of the blocks that several workers read.
//!
//! Each worker holds a ticket of each block that it read, in the order in which it took them. So of one feed a worker's blocks rise, and
//! the blocks of all workers are put in the feed's order by a merge: the next is the one that begins where the last one ended.
ghost use Rattle.std.specs.Prelude.{◌≡◌, ◌<◌, ◌↔◌, ℕ, List, [], IsTrue, length, map, slice_index_or, IfOk, IfErr, IfSome, IfNone};
ghost use Rattle.std.specs.List.{All};
ghost use Rattle.fkv_blocks.specs.Orders.{AreOrdered, BeginsAt, IsNext, IsOrder, spans_in};

use crate::spans::{Span, Ticket};
use fkv_functions::Refused;
use std::alloc::Global;
use std::collections::VecDeque;

/// A block of a feed that was read, and the place of the worker that read it, counted from 0.
#[derive(Clone, Copy, PartialEq, Eq, Debug)]
pub struct Taken {
    pub worker: usize,
    pub span: Span,
}

/// What these tickets have of a feed, in their order. Refused: `NoMemory`.
fn spans_of(alloc: Global, hand: &[Ticket], feed: usize) -> Result<VecDeque<Span>, Refused>
    ensures ok { IfOk result (λ spans. spans.items ≡ spans_in feed hand.now) }
    ensures only { IfErr result (λ e. e ≡ Refused.NoMemory) }
{
    let mut spans = VecDeque::new(alloc);
    for ticket in hand {
        if ticket.feed != feed {
            continue;
        }
        let Ok(()) = spans.push_back(ticket.span) else {
            return Err(Refused::NoMemory);
        };
    }
    Ok(spans)
}

/// What each worker's tickets have of a feed. Refused: `NoMemory`.
fn lists_of(
    alloc: Global,
    hands: &[Vec<Ticket>],
    feed: usize,
) -> Result<Vec<VecDeque<Span>>, Refused>
    ensures ok { IfOk result (λ lists. map (λ list. list.items) lists.items ≡ map (spans_in feed) (map (λ hand. hand.items) hands.now)) }
    ensures only { IfErr result (λ e. e ≡ Refused.NoMemory) }
{
    let mut lists = Vec::new(alloc);
    for hand in hands {
        let spans = match spans_of(alloc, hand.as_slice(), feed) {
            Ok(spans) => spans,
            Err(refused) => return Err(refused),
        };
        let Ok(()) = lists.push(spans) else {
            return Err(Refused::NoMemory);
        };
    }
    Ok(lists)
}

/// Whether a list goes on at this place, with one byte at least.
fn begins_at(list: &VecDeque<Span>, at: u64) -> bool
    ensures { IsTrue result ↔ BeginsAt at list.now.items }
{
    let Some(span) = list.front() else {
        return false;
    };
    if span.low != at {
        return false;
    }
    at < span.high
}

/// The first worker whose list goes on at this place; none where none does.
fn next_at(lists: &[VecDeque<Span>], at: u64) -> Option<usize>
    ensures some { IfSome result (λ worker. BeginsAt at (slice_index_or (map (λ list. list.items) lists.now) worker [])) }
    ensures none { IfNone result ((worker : ℕ) → BeginsAt at (slice_index_or (map (λ list. list.items) lists.now) worker []) → ⊥) }
{
    for (worker, list) in lists.iter().enumerate() {
        if begins_at(list, at) {
            return Some(worker);
        }
    }
    None
}

/// Takes the span that goes on at this place off its worker's list; none where there is none.
fn take_next(lists: &mut Vec<VecDeque<Span>>, at: u64) -> Option<Taken>
    ensures some { IfSome result (λ taken. IsNext at (map (λ list. list.items) lists.old.items) taken (map (λ list. list.items) lists.new.items)) }
    ensures none { IfNone result ((worker : ℕ) → BeginsAt at (slice_index_or (map (λ list. list.items) lists.old.items) worker []) → ⊥) }
{
    let worker = next_at(lists.as_slice(), at)?;
    let span = lists[worker].pop_front()?;
    Some(Taken { worker, span })
}

/// Whether nothing is left of these lists.
fn are_empty(lists: &[VecDeque<Span>]) -> bool
    ensures { IsTrue result ↔ ((worker : ℕ) → slice_index_or (map (λ list. list.items) lists.now) worker [] ≡ []) }
{
    for list in lists {
        match list.front() {
            Some(_) => return false,
            None => {}
        }
    }
    true
}

/// The order in which the spans of these lists lie one behind another, from the start up to this place; none where there is none.
/// Refused: `NoMemory`.
fn order_of(
    alloc: Global,
    lists: Vec<VecDeque<Span>>,
    end: u64,
) -> Result<Option<Vec<Taken>>, Refused>
    ensures some { IfOk result (λ found. IfSome found (λ order. IsOrder 0 end (map (λ list. list.items) lists.items) order.items)) }
    ensures none { IfOk result (λ found. IfNone found ((order : List Taken) → IsOrder 0 end (map (λ list. list.items) lists.items) order → ⊥)) }
    ensures only { IfErr result (λ e. e ≡ Refused.NoMemory) }
{
    let mut lists = lists;
    let mut order = Vec::new(alloc);
    let mut at = 0;
    while at < end {
        let taken = match take_next(&mut lists, at) {
            Some(taken) => taken,
            None => return Ok(None),
        };
        let Ok(()) = order.push(taken) else {
            return Err(Refused::NoMemory);
        };
        at = taken.span.high;
    }
    if at != end {
        return Ok(None);
    }
    if !are_empty(lists.as_slice()) {
        return Ok(None);
    }
    Ok(Some(order))
}

/// Whether each of these tickets is of one of so many feeds.
fn are_of(hand: &[Ticket], feeds: usize) -> bool
    ensures { IsTrue result ↔ All (λ ticket. ticket.feed < feeds) hand.now }
{
    for ticket in hand {
        if ticket.feed >= feeds {
            return false;
        }
    }
    true
}

/// Whether each ticket of all workers is of one of so many feeds.
fn all_are_of(hands: &[Vec<Ticket>], feeds: usize) -> bool
    ensures { IsTrue result ↔ All (All (λ ticket. ticket.feed < feeds)) (map (λ hand. hand.items) hands.now) }
{
    for hand in hands {
        if !are_of(hand.as_slice(), feeds) {
            return false;
        }
    }
    true
}

/// The blocks of each feed in its order, with the worker of each, by the tickets that each worker holds, in the order in which it took
/// them; none where the blocks of some feed do not lie one behind another from its start to its end. A block has one byte at least.
///
/// # Errors
///
/// `NoMemory`.
pub fn ordered(
    alloc: Global,
    ends: &[u64],
    hands: &[Vec<Ticket>],
) -> Result<Option<Vec<Vec<Taken>>>, Refused>
    ensures some { IfOk result (λ found. IfSome found (λ orders.
        AreOrdered ends.now (map (λ hand. hand.items) hands.now) (map (λ order. order.items) orders.items))) }
    ensures none { IfOk result (λ found. IfNone found ((orders : List (List Taken))
        → AreOrdered ends.now (map (λ hand. hand.items) hands.now) orders → ⊥)) }
    ensures only { IfErr result (λ e. e ≡ Refused.NoMemory) }
{
    if !all_are_of(hands, ends.len()) {
        return Ok(None);
    }
    let mut orders = Vec::new(alloc);
    for (feed, end) in ends.iter().enumerate() {
        let lists = match lists_of(alloc, hands, feed) {
            Ok(lists) => lists,
            Err(refused) => return Err(refused),
        };
        let order = match order_of(alloc, lists, *end) {
            Ok(Some(order)) => order,
            Ok(None) => return Ok(None),
            Err(refused) => return Err(refused),
        };
        let Ok(()) = orders.push(order) else {
            return Err(Refused::NoMemory);
        };
    }
    Ok(Some(orders))
}
