//! Whether two pages have the same bytes.
ghost use Rattle.std.specs.Prelude.{◌≡◌, ◌↔◌, length, IsTrue};

/// Whether these bytes are those, a block at a time: no page is shorter than a block.
pub fn is_same(left: &[u8], right: &[u8]) -> bool
    ensures { IsTrue result ↔ (left.now ≡ right.now) }
{
    if left.len() != right.len() {
        return false;
    }
    let mut at = 0;
    while left.len() - at >= 256 {
        if !is_same_block(&left[at..at + 256], &right[at..at + 256]) {
            return false;
        }
        at += 256;
    }
    is_same_rest(&left[at..], &right[at..])
}

/// Whether these 256 bytes are those. No test stands in the loop, so it becomes some vectors and one test at the end.
fn is_same_block(left: &[u8], right: &[u8]) -> bool
    requires left { length left.now ≡ 256 }
    requires right { length right.now ≡ 256 }
    ensures { IsTrue result ↔ (left.now ≡ right.now) }
{
    let mut differences = 0;
    for at in 0..256 {
        differences |= left[at] ^ right[at];
    }
    differences == 0
}

/// Whether these bytes, fewer than a block, are those.
fn is_same_rest(left: &[u8], right: &[u8]) -> bool
    ensures { IsTrue result ↔ (left.now ≡ right.now) }
{
    left == right
}
