//! Offsets of a log, views of them, and the regions of a view.
ghost use Rattle.std.specs.Prelude.{◌≡◌, ◌≤◌, ◌↔◌, IsTrue};
ghost use Rattle.fkv_regions.specs.Offsets.{view_of, region_of, ran_all};
ghost use Rattle.fkv_regions.specs.declared.offsets.Region.TheVariants.{Mutable};

use fkv_epoch::Action;
use fkv_records::Address;

/// Where the parts of a log begin and end. They rise in this order: `closed`, `head`, `safe_read_only`,
/// `read_only`.
#[derive(Clone, Copy, Debug, PartialEq, Eq)]
pub struct Offsets {
    /// Frames of pages below it may be used again.
    pub closed: Address,
    /// Pages below it leave their frames once every session has seen it.
    pub head: Address,
    /// Records below it change no more.
    pub safe_read_only: Address,
    /// Records below it change no more once every session has seen it.
    pub read_only: Address,
}

/// What a session saw of the offsets when it last looked.
#[derive(Clone, Copy, Debug, Default, PartialEq, Eq)]
pub struct View {
    pub head: Address,
    pub safe_read_only: Address,
    pub read_only: Address,
}

/// Where an address lies by a view.
#[derive(Clone, Copy, Debug, PartialEq, Eq)]
pub enum Region {
    /// Below Head: its page may have left its frame.
    OnDisk,
    /// Below SafeReadOnly: its record changes no more.
    ReadOnly,
    /// Below ReadOnly: sessions with an older view may still change its record.
    Fuzzy,
    /// From ReadOnly on: its record may be changed in place.
    Mutable,
}

impl Offsets {
    /// The view of now.
    pub fn view(&self) -> View
        ensures { result ≡ view_of self.now }
    {
        View {
            head: self.head,
            safe_read_only: self.safe_read_only,
            read_only: self.read_only,
        }
    }
}

impl View {
    /// The region of an address.
    pub fn region(&self, address: Address) -> Region
        ensures { result ≡ region_of self.now address }
    {
        if address < self.head {
            Region::OnDisk
        } else if address < self.safe_read_only {
            Region::ReadOnly
        } else if address < self.read_only {
            Region::Fuzzy
        } else {
            Region::Mutable
        }
    }

    /// Whether the record at an address may be changed in place, by a view whose offsets stand in their order.
    pub fn is_mutable(&self, address: Address) -> bool
        requires head { self.now.head ≤ self.now.read_only }
        requires safe { self.now.safe_read_only ≤ self.now.read_only }
        ensures { IsTrue result ↔ (region_of self.now address ≡ Mutable) }
    {
        self.read_only <= address
    }
}

/// Runs the actions that come out, in order.
pub(crate) fn run(offsets: &mut Offsets, due: &[Action])
    ensures { offsets.new ≡ ran_all offsets.old due.now }
{
    for action in due {
        match *action {
            Action::Safe(to) => offsets.safe_read_only = to,
            Action::Closed(to) => offsets.closed = to,
        }
    }
}
