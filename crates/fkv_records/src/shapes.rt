//! The shape of a log: its pages, and the places of its records.
ghost use Rattle.std.specs.Prelude.{◌≡◌, ◌+◌, ◌*◌, ◌^◌, ◌<◌, ◌≤◌, ◌↔◌, ◌%◌, ℕ, IfSome, IsSome, IsSomeAnd, IsTrue};
ghost use Rattle.fkv_records.specs.Places.{IsShape, page_at, offset_at, start_at, place_after, first_offset};
ghost use Rattle.fkv_records.specs.Places.{StandsInPage, IsRecordStart};

use crate::addresses::{Address, END, FIRST};

/// How a log is laid out: pages of 2^`page_bits` bytes, page `n` at `n` times that, and records of
/// `record_size` bytes, none of which crosses a page.
#[derive(Clone, Copy, Debug, PartialEq, Eq)]
pub struct Shape {
    pub page_bits: u32,
    pub record_size: usize,
    pub ghost limits: { IsShape page_bits record_size },
}

impl Shape {
    /// The shape with pages of 2^8 to 2^20 bytes and records of 8 to 192 bytes, a multiple of 8.
    pub fn new(page_bits: u32, record_size: usize) -> Option<Shape>
        ensures some { IfSome result (λ s. (s.page_bits ≡ page_bits) × (s.record_size ≡ record_size)) }
        ensures range { IsSome result ↔ IsShape page_bits record_size }
    {
        let pages = 8 <= page_bits && page_bits <= 20;
        let records = 8 <= record_size && record_size <= 192 && record_size % 8 == 0;
        if pages && records {
            Some(Shape {
                page_bits,
                record_size,
            })
        } else {
            None
        }
    }

    /// How many bytes a page has.
    pub fn page_size(&self) -> usize
        ensures { result ≡ 2 ^ self.now.page_bits }
    {
        1 << self.page_bits
    }

    /// The number of the page of an address.
    pub fn page_of(&self, address: Address) -> u64
        ensures { result ≡ page_at self.now.page_bits address }
    {
        address >> self.page_bits
    }

    /// How far into its page an address lies.
    #[tactic(auto, using(crate::proofs::PlaceLemmas::offset_masked))]
    pub fn offset_of(&self, address: Address) -> usize
        ensures value { result ≡ offset_at self.now.page_bits address }
        // a record at a place ends in its page
        ensures room { IsRecordStart self.now.page_bits self.now.record_size address
            → result + self.now.record_size ≤ 2 ^ self.now.page_bits }
    {
        address as usize & (self.page_size() - 1)
    }

    /// The address at which a page starts.
    pub fn start(&self, page: u64) -> Address
        requires { start_at self.now.page_bits page < 2 ^ 64 }
        ensures value { result ≡ start_at self.now.page_bits page }
        // each page but page 0 starts with a place
        ensures place { 1 ≤ page → result < END → IsRecordStart self.now.page_bits self.now.record_size result }
    {
        page << self.page_bits
    }

    /// The place after an address: right behind its record where the page has room for one more, else at the
    /// start of the next page. It is `None` where a record there would end above 2^48.
    pub fn next_place(&self, address: Address) -> Option<Address>
        ensures value { result ≡ place_after self.now.page_bits self.now.record_size address }
        ensures rises { IfSome result (λ next. address < next) }
        // from a place on, records lie apart, and no place is passed over
        ensures place { IsRecordStart self.now.page_bits self.now.record_size address
            → IfSome result (IsRecordStart self.now.page_bits self.now.record_size) }
        ensures apart { IsRecordStart self.now.page_bits self.now.record_size address
            → IfSome result (λ next. address + self.now.record_size ≤ next) }
        ensures nearest { (place : ℕ) → IsRecordStart self.now.page_bits self.now.record_size address
            → IsRecordStart self.now.page_bits self.now.record_size place → address < place
            → IsSomeAnd result (λ next. next ≤ place) }
    {
        if address >= END {
            return None;
        }
        let size = self.record_size as u64;
        let end = self.start(self.page_of(address) + 1);
        let place = if address + 2 * size <= end {
            address + size
        } else {
            end
        };
        if place + size <= END {
            Some(place)
        } else {
            None
        }
    }

    /// Whether a record may stand at an address: whether a run of [`Shape::next_place`] from 64 comes there.
    pub fn is_record_start(&self, address: Address) -> bool
        ensures value { IsTrue result ↔ IsRecordStart self.now.page_bits self.now.record_size address }
        ensures low { IsTrue result → FIRST ≤ address }
        ensures high { IsTrue result → address + self.now.record_size ≤ END }
    {
        self.stands_in_page(address)
    }

    /// The same by arithmetic: whether a whole number of records lies between the first place of the page and
    /// the address, and one more ends in the page.
    fn stands_in_page(&self, address: Address) -> bool
        ensures { IsTrue result ↔ StandsInPage self.now.page_bits self.now.record_size address }
    {
        let first = self.first_offset(self.page_of(address));
        let offset = self.offset_of(address);
        address < END
            && first <= offset
            && offset + self.record_size <= self.page_size()
            && (offset - first) % self.record_size == 0
    }

    /// How far into a page its first record stands: the first 64 bytes of page 0 hold none.
    fn first_offset(&self, page: u64) -> usize
        ensures { result ≡ first_offset page }
    {
        if page == 0 { FIRST as usize } else { 0 }
    }
}
