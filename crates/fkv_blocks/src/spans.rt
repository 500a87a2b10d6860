//! Blocks of a text that were read, by their places.
ghost use Rattle.std.specs.Prelude.{◌↔◌, IsTrue};
ghost use Rattle.fkv_blocks.specs.Spans.{Chains};

/// A block of a text that was read: where it begins and ends, and how many records it has.
#[derive(Clone, Copy, PartialEq, Eq, Debug)]
pub struct Span {
    pub low: u64,
    pub high: u64,
    pub records: u64,
}

/// A block of a feed that was read: the place of the feed, counted from 0, and what was read of it.
#[derive(Clone, Copy, PartialEq, Eq, Debug)]
pub struct Ticket {
    pub feed: usize,
    pub span: Span,
}

/// Whether these lie one behind another, from the start up to this place.
pub fn chains(spans: &[Span], high: u64) -> bool
    ensures { IsTrue result ↔ Chains 0 spans.now high }
{
    let mut at = 0;
    for span in spans {
        if span.low != at {
            return false;
        }
        if span.high < at {
            return false;
        }
        at = span.high;
    }
    at == high
}
