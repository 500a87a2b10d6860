//! Tickets that are put in the order of their feeds, and some that have none.
use fkv_blocks::{Span, Taken, Ticket, ordered};
use fkv_functions::Refused;
use std::alloc::Global;

/// Tickets: of which feed, and where the block begins and ends.
type Hand = &'static [(usize, u64, u64)];

/// The tickets of a worker. Refused: `NoMemory`.
fn hand_of(alloc: Global, rows: Hand) -> Result<Vec<Ticket>, Refused> {
    let mut hand = Vec::new(alloc);
    for (feed, low, high) in rows {
        let span = Span {
            low: *low,
            high: *high,
            records: 1,
        };
        let Ok(()) = hand.push(Ticket { feed: *feed, span }) else {
            return Err(Refused::NoMemory);
        };
    }
    Ok(hand)
}

/// A feed's blocks as text: of each the worker, `a` or `b`, and the last digit of where it begins; a full stop at the end. Refused:
/// `NoMemory`.
fn tell(text: &mut Vec<u8>, order: &[Taken]) -> Result<(), Refused> {
    for taken in order {
        let worker = if taken.worker == 0 { b'a' } else { b'b' };
        let low = b'0' + (taken.span.low % 10) as u8;
        let Ok(()) = text.extend_from_slice(&[worker, low]) else {
            return Err(Refused::NoMemory);
        };
    }
    match text.push(b'.') {
        Ok(()) => Ok(()),
        Err(_) => Err(Refused::NoMemory),
    }
}

/// The order of two workers' tickets as text, feed by feed. Refused: `NoMemory`.
fn told(alloc: Global, ends: &[u64], a: Hand, b: Hand) -> Result<Option<Vec<u8>>, Refused> {
    let mut hands = Vec::new(alloc);
    for rows in [a, b] {
        let Ok(()) = hands.push(hand_of(alloc, rows)?) else {
            return Err(Refused::NoMemory);
        };
    }
    let Some(orders) = ordered(alloc, ends, hands.as_slice())? else {
        return Ok(None);
    };
    let mut text = Vec::new(alloc);
    for order in &orders {
        tell(&mut text, order.as_slice())?;
    }
    Ok(Some(text))
}

/// Where the feeds end, the tickets of two workers, and the order, where there is one.
const ROWS: [(&[u64], Hand, Hand, Option<&str>); 21] = [
    // no feed, and feeds without a byte
    (&[], &[], &[], Some("")),
    (&[0, 0], &[], &[], Some("..")),
    // one worker, the other one, and both
    (&[9], &[(0, 0, 4), (0, 4, 9)], &[], Some("a0a4.")),
    (&[9], &[], &[(0, 0, 9)], Some("b0.")),
    (&[9], &[(0, 4, 9)], &[(0, 0, 4)], Some("b0a4.")),
    (
        &[9],
        &[(0, 0, 2), (0, 6, 9)],
        &[(0, 2, 4), (0, 4, 6)],
        Some("a0b2b4a6."),
    ),
    // two feeds, which the workers take by turns
    (
        &[4, 6],
        &[(0, 0, 2), (1, 3, 6)],
        &[(1, 0, 3), (0, 2, 4)],
        Some("a0b2.b0a3."),
    ),
    (&[4, 0, 6], &[(2, 0, 6)], &[(0, 0, 4)], Some("b0..a0.")),
    // the end is missing, or the start, or a feed; a gap
    (&[9], &[(0, 0, 4)], &[], None),
    (&[9], &[(0, 4, 9)], &[], None),
    (&[9], &[], &[], None),
    (&[4, 4], &[(0, 0, 4)], &[], None),
    (&[9], &[(0, 0, 3)], &[(0, 4, 9)], None),
    // an overlap; a block twice; one in another; one behind the end, and one over it
    (&[9], &[(0, 0, 5)], &[(0, 4, 9)], None),
    (&[9], &[(0, 0, 9)], &[(0, 0, 9)], None),
    (&[9], &[(0, 0, 9)], &[(0, 3, 5)], None),
    (&[4], &[(0, 0, 4)], &[(0, 4, 9)], None),
    (&[8], &[(0, 0, 4), (0, 4, 9)], &[], None),
    // a worker's blocks that fall; a block without a byte; a feed that there is not
    (&[9], &[(0, 4, 9), (0, 0, 4)], &[], None),
    (&[4], &[(0, 0, 4), (0, 4, 4)], &[], None),
    (&[4], &[(0, 0, 4)], &[(1, 0, 4)], None),
];

#[test]
fn tickets_in_order(rt: HostRuntime) {
    for (ends, a, b, wanted) in ROWS {
        let Ok(came) = told(rt.alloc(), ends, a, b) else {
            panic!(rt; "no memory");
        };
        let same = match (&came, wanted) {
            (Some(text), Some(wanted)) => text.as_slice() == wanted.as_bytes(),
            (None, None) => true,
            _ => false,
        };
        assert!(rt; same, "{ends:?} {a:?} {b:?}");
    }
}
