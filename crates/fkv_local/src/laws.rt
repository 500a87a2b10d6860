//! What is known of a store over memory: laws with no code.
ghost use Rattle.fkv_functions.specs.declared.refusals.Refused.{Refused};
ghost use Rattle.fkv_operations.specs.declared.operations.KeyedOp.{KeyedOp};
ghost use Rattle.fkv_alone.specs.Causes.{CanFailToRead, CanFailToWrite};
ghost use Rattle.fkv_local.specs.Storing.{StoreView};
ghost use Rattle.fkv_local.specs.Causing.{IsCausedBy, IsMemoryRefusal};
ghost use Rattle.fkv_local.specs.Refusing.{IsRefusal};

use fkv_device::{
    Disk, MemoryReader, MemoryReceipt, MemoryWriter, PageReader, PageWriter, Receipt,
};
use fkv_functions::Mergeable;

/// Over memory no write fails of a writer that has numbers left, and no read by a receipt.
pub fn memory_cannot_fail()
    ensures writes { CanFailToWrite ⟦<MemoryWriter as PageWriter>⟧.next ⟦<MemoryWriter as PageWriter>⟧.can_fail → ⊥ }
    ensures reads { CanFailToRead ⟦<MemoryReceipt as Receipt>⟧.stands ⟦<MemoryReader as PageReader>⟧.can_fail → ⊥ }
{}

/// On a device that can't fail, as memory is, an operation is refused only for want of memory, of addresses or of moments, or as a
/// merge of functions that don't merge.
pub fn refused_where_nothing_fails<F: Mergeable, D: Disk>()
    ensures refused { (CanFailToWrite D.Writer.next D.Writer.can_fail → ⊥)
        → (CanFailToRead D.Receipt.stands D.Reader.can_fail → ⊥)
        → (old new : StoreView F.Key F.Value F.Input D.Writer D.Reader) (op : KeyedOp F.Key F.Value F.Input) (why : Refused)
        → IsRefusal D.Receipt.keeps F.MERGES F.code D.Writer.failures D.Reader.failures old new op why
        → IsCausedBy (CanFailToWrite D.Writer.next D.Writer.can_fail) (CanFailToRead D.Receipt.stands D.Reader.can_fail) why
        → IsMemoryRefusal F.MERGES op why }
{}
