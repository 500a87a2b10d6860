//! How much memory a store may take, and the numbers that follow from it.
//!
//! Each partition has its share. An eighth of that is for what grows with the table: receipts of pages, buckets that overflow, and the
//! lists that are made at the end. A quarter, at most, is for its buckets, 64 bytes each; the rest is for its page frames. Pages are as
//! small as some hundreds of frames allow, since whoever reads one page reads it whole. Rows that are made merges read none: then some
//! tens of frames are enough, and larger pages have fewer receipts.
ghost use Rattle.std.specs.Prelude.{◌≡◌, ◌≤◌, length};
ghost use Rattle.fkv_requests.specs.Memory.{
  size_of,
  digits_in,
  is_bytes,
  power_of,
  unit_of,
  scaled,
  bits_within,
  partition_bits_in,
  share_of,
  bucket_bits_in,
  page_bits_in,
  frames_in,
};

use fkv_feed_rows::rows::short_number;

/// What a letter stands for: K 2^10, M 2^20, G 2^30 and T 2^40.
fn power_of(letter: u8) -> Option<u64>
    ensures { result ≡ power_of letter }
{
    match letter {
        b'K' => Some(1 << 10),
        b'M' => Some(1 << 20),
        b'G' => Some(1 << 30),
        b'T' => Some(1 << 40),
        _ => None,
    }
}

/// Whether this may stand behind a unit's letter: nothing, `B` or `iB`, in either case.
fn is_bytes(text: &[u8]) -> bool
    ensures { result ≡ is_bytes text.now }
{
    match text {
        [] => true,
        [last] => last.to_ascii_uppercase() == b'B',
        [first, last] => { first.to_ascii_uppercase() == b'I' && last.to_ascii_uppercase() == b'B' }
        _ => false,
    }
}

/// The unit that a text names: a letter in either case, and `B` or `iB` behind it or nothing. All are powers of 1024.
fn unit_of(text: &[u8]) -> Option<u64>
    ensures { result ≡ unit_of text.now }
{
    let [letter, rest @ ..] = text else {
        return None;
    };
    if is_bytes(rest) {
        power_of(letter.to_ascii_uppercase())
    } else {
        None
    }
}

/// How many digits stand at the front of a text.
pub fn digits_in(text: &[u8]) -> usize
    ensures digits { result ≡ digits_in text.now }
    ensures bound { result ≤ length text.now }
{
    let place = text.iter().position(|byte| !byte.is_ascii_digit());
    place.unwrap_or(text.len())
}

/// The number of bytes that a text names: one to eighteen digits, and a unit behind them (`64M`, `64mb`, `64MiB`).
pub fn size_of(text: &[u8]) -> Option<u64>
    ensures { result ≡ size_of text.now }
{
    let digits = digits_in(text);
    scaled(&text[..digits], unit_of(&text[digits..]))
}

/// A number of one to eighteen digits, times a unit, if there is one; `None` also where that has no 64 bits.
fn scaled(digits: &[u8], unit: Option<u64>) -> Option<u64>
    ensures { result ≡ scaled digits.now unit }
{
    let Some(unit) = unit else {
        return None;
    };
    if digits.len() > 18 {
        return None;
    }
    match short_number(digits) {
        Some(number) => number.checked_mul(unit),
        None => None,
    }
}

/// The greatest number of bits, at most `most`, whose power of two is at most `number`; 0 where there is none.
fn bits_within(number: u64, most: u64) -> u64
    ensures { result ≡ bits_within number most }
{
    let bits = 63u64.saturating_sub(u64::from(number.leading_zeros()));
    bits.min(most)
}

/// The bits of the number of partitions: each has 256 KiB at least, and there are at most 2^6. Pages are the smaller the more there
/// are, and who reads a record reads its whole page.
pub fn partition_bits_in(memory: u64) -> u64
    ensures { result ≡ partition_bits_in memory }
{
    bits_within(memory / (1 << 18), 6)
}

/// What each of 2^`partition_bits` partitions may take; there are at most 2^6.
pub fn share_of(memory: u64, partition_bits: u64) -> u64
    ensures { result ≡ share_of memory partition_bits }
{
    memory >> partition_bits.min(6)
}

/// The bits of the number of a partition's buckets.
pub fn bucket_bits_in(share: u64) -> u64
    ensures { result ≡ bucket_bits_in share }
{
    bits_within(share / 256, 20)
}

/// The bits of a page's size: pages are larger where rows are made merges.
pub fn page_bits_in(share: u64, merge: bool) -> u64
    ensures { result ≡ page_bits_in share merge }
{
    let least = if merge { 1 << 13 } else { 1 << 17 };
    8 + bits_within(share / least, 12)
}

/// The page frames of a partition, in what its buckets leave of seven eighths of its share: from 2 to 1024. There are at most 2^20
/// buckets, and a page has at most 2^20 bytes.
pub fn frames_in(bucket_bits: u64, page_bits: u64, share: u64) -> u64
    ensures { result ≡ frames_in bucket_bits page_bits share }
{
    let buckets = 64u64 << bucket_bits.min(20);
    let rest = share.saturating_sub(share / 8).saturating_sub(buckets);
    (rest >> page_bits.min(20)).min(1024).max(2)
}
