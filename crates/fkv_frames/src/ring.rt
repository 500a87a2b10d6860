//! The ring of frames.
ghost use Rattle.std.specs.Prelude.{◌≡◌, ◌+◌, ◌%◌, ◌^◌, ◌<◌, ◌≤◌, ◌↔◌, ℕ, length, IfOk, IfErr, IfSome, IsSome, Some, None, is_some};
ghost use Rattle.fkv_records.specs.Places.{page_at, offset_at};
ghost use Rattle.fkv_frames.specs.Held.{held, written_at, Opens, Writes};

use fkv_functions::Refused;
use fkv_records::Address;
use std::alloc::Global;
use std::marker::Model;

/// A frame: the page that it holds, and its bytes.
#[derive(Drop)]
struct Frame {
    page: Option<u64>,
    bytes: Vec<u8>,
}

/// Pages in memory, each in the frame of its number modulo the number of frames.
#[derive(Drop)]
pub struct Frames {
    page_bits: u32,
    /// A multiple of the number of frames, from which the pages of two rounds are found without a division.
    round: u64,
    frames: Vec<Frame>,
}

impl Model for Frames {
    ghost use Rattle.fkv_frames.specs.Ring.{Ring};

    ghost Value = { Ring };

    ghost use Rattle.fkv_frames.specs.Inside.{ring_of, IsRing};

    ghost view = { ring_of };

    ghost invariant = { IsRing };
}

impl Frames {
    /// This many frames for pages of 2^`page_bits` bytes, with no page in them. Refused: `NoMemory`.
    pub fn new(alloc: Global, page_bits: u32, count: u64) -> Result<Frames, Refused>
        requires bits { page_bits ≤ 20 }
        requires some { 0 < count }
        ensures bits { IfOk result (λ f. f.bits ≡ page_bits) }
        ensures count { IfOk result (λ f. length f.slots ≡ count) }
        ensures none { IfOk result (λ f. (n : ℕ) → held f n ≡ None) }
        ensures only { IfErr result (λ refused. refused ≡ Refused.NoMemory) }
    {
        let size = 1usize << page_bits;
        let mut frames = Vec::new(alloc);
        for _ in 0..count {
            let Ok(bytes) = vec![in alloc; 0u8; size] else {
                return Err(Refused::NoMemory);
            };
            let Ok(()) = frames.push(Frame { page: None, bytes }) else {
                return Err(Refused::NoMemory);
            };
        }
        Ok(Frames {
            page_bits,
            round: 0,
            frames,
        })
    }

    /// How many frames there are.
    pub fn count(&self) -> u64
        ensures { result ≡ length self.now.slots }
    {
        self.frames.len() as u64
    }

    /// Tells a proof what holds of frames at any time. It does nothing when it runs.
    pub fn facts(&self)
        ensures some { 0 < length self.now.slots }
        ensures bits { self.now.bits ≤ 20 }
        ensures sizes { (n : ℕ) → IfSome (held self.now n) (λ bytes. length bytes ≡ 2 ^ self.now.bits) }
    {
        let _bits = self.page_bits;
    }

    /// Whether a page is in its frame.
    pub fn holds(&self, page: u64) -> bool
        ensures { result ≡ is_some (held self.now page) }
    {
        let at = frame_of(self.round, self.frames.len() as u64, page) as usize;
        let frame = &self.frames[at];
        frame.page == Some(page)
    }

    /// The bytes of a page that is in its frame ([`Frames::holds`]).
    pub fn bytes(&self, page: u64) -> &[u8]
        requires { IsSome (held self.now page) }
        ensures value { held self.now page ≡ Some result.now }
        ensures size { length result.now ≡ 2 ^ self.now.bits }
    {
        let at = frame_of(self.round, self.frames.len() as u64, page) as usize;
        let frame = &self.frames[at];
        frame.bytes.as_slice()
    }

    /// Puts a page of zeros into its frame. The page that was there is dropped, and no other.
    pub fn open_page(&mut self, page: u64)
        ensures { Opens page self.old self.new }
    {
        let count = self.frames.len() as u64;
        let at = frame_of(self.round, count, page) as usize;
        self.round = round_for(self.round, count, page);
        let frame = &mut self.frames[at];
        frame.page = Some(page);
        frame.bytes.as_mut_slice().fill(0);
    }

    /// Writes bytes at an address, whose page is in its frame and has room for them.
    pub fn write_at(&mut self, address: Address, bytes: &[u8])
        requires held { IsSome (held self.old (page_at self.old.bits address)) }
        requires fits { offset_at self.old.bits address + length bytes.now ≤ 2 ^ self.old.bits }
        ensures { Writes (page_at self.old.bits address) (offset_at self.old.bits address) bytes.now self.old self.new }
    {
        let page = address >> self.page_bits;
        let offset = offset_in(self.page_bits, address);
        self.write_in(page, offset, bytes);
    }

    /// Writes bytes at an offset of a page, which is in its frame and has room for them.
    pub fn write_in(&mut self, page: u64, offset: usize, bytes: &[u8])
        requires held { IsSome (held self.old page) }
        requires fits { offset + length bytes.now ≤ 2 ^ self.old.bits }
        ensures { Writes page offset bytes.now self.old self.new }
    {
        let at = frame_of(self.round, self.frames.len() as u64, page) as usize;
        let frame = &mut self.frames[at];
        splice(&mut frame.bytes, offset, bytes);
    }
}

/// The frame of a page, among so many. No division is needed for a page of the two rounds from `round` on.
fn frame_of(round: u64, count: u64, page: u64) -> u64
    requires some { 0 < count }
    requires whole { round % count ≡ 0 }
    ensures { result ≡ page % count }
{
    if page < round {
        return page % count;
    }
    let far = page - round;
    if far < count {
        return far;
    }
    if far - count < count {
        return far - count;
    }
    page % count
}

/// Where the two rounds begin once this page is opened: one round higher where the page lies behind them. So where pages are opened
/// one after another, each page in a frame is found without a division.
fn round_for(round: u64, count: u64, page: u64) -> u64
    requires some { 0 < count }
    requires whole { round % count ≡ 0 }
    ensures whole { result % count ≡ 0 }
{
    if page < round || page - round < count || page - round - count < count {
        return round;
    }
    round + count
}

/// How far into its page an address lies.
fn offset_in(page_bits: u32, address: Address) -> usize
    requires { page_bits ≤ 20 }
    ensures { result ≡ offset_at page_bits address }
{
    let size = 1usize << page_bits;
    address as usize & (size - 1)
}

/// Writes bytes at an offset of a page.
fn splice(page: &mut [u8], offset: usize, bytes: &[u8])
    requires { offset + length bytes.now ≤ length page.old }
    ensures { page.new ≡ written_at page.old offset bytes.now }
{
    let end = offset + bytes.len();
    page[offset..end].copy_from_slice(bytes);
}
