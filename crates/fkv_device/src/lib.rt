//! Pages on a device: what a receipt of a written page stands for, and when a device may fail.
//!
//! A device is not the store's own: it may lose a page, or give other bytes. What is believed of one
//! that keeps what it is given is the ghost member `keeps`, and each clause about bytes has it as its
//! premise. All other clauses hold of every device. [`MemoryDevice`] keeps.
#![tactic(auto)]

pub mod comparing;
pub mod disks;
pub mod failures;
pub mod files;
pub mod folders;
pub mod laws;
pub mod memory;
pub mod messages;
pub mod page_files;
pub mod pages;
pub mod receipts;
pub mod shared;

pub use disks::Disk;
pub use files::{FileReader, FileReceipt, FileWriter};
pub use folders::FileDevice;
pub use laws::files_keep_or_collide;
pub use memory::{MemoryDevice, MemoryReader, MemoryReceipt, MemoryWriter};
pub use messages::{FlushJob, Loaded, Written};
pub use page_files::PageFile;
pub use pages::{PageReader, PageWriter};
pub use receipts::Receipt;
pub use shared::Page;
