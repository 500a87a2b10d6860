//! The beginning of a locked partition.
ghost use Rattle.std.specs.Prelude.{◌≡◌, ◌≢◌, ◌⊎◌, Err, IfOk, IfErr};
ghost use Rattle.fkv_records.specs.Records.{size_of};
ghost use Rattle.fkv_partition.specs.Limits.{IsPartitionOf};
ghost use Rattle.fkv_partition.specs.Views.{empty_partition};
ghost use Rattle.fkv_locked.specs.Fresh.{fresh_lock};

use crate::locked::Locked;
use crate::marks::fresh_marks;
use fkv_device::Receipt;
use fkv_functions::{Mergeable, Refused};
use fkv_histories::Recorder;
use fkv_operations::Clock;
use fkv_partition::{Config, Partition};
use std::alloc::Global;

impl<F: Mergeable, R: Receipt, H: Recorder<F>> Locked<F, R, H> {
    /// The partition of this number, with nothing in it, and nothing finished. Refused, in this order: `BadConfig` where a
    /// number of the configuration is outside its limits, a record is too large, or there is no partition of this number,
    /// `NoMemory`.
    pub fn new(alloc: Global, config: &Config, number: u64) -> Result<Self, Refused>
        ensures ok { IfOk result (λ l. l
            ≡ fresh_lock (empty_partition F.MERGES config.now (size_of F.Key.SIZE F.Value.SIZE) number)) }
        ensures good { result ≢ Err Refused.BadConfig
            → IsPartitionOf config.now (size_of F.Key.SIZE F.Value.SIZE) number }
        ensures bad { result ≡ Err Refused.BadConfig
            → ¬ IsPartitionOf config.now (size_of F.Key.SIZE F.Value.SIZE) number }
        ensures only { IfErr result (λ refused. (refused ≡ Refused.BadConfig) ⊎ (refused ≡ Refused.NoMemory)) }
    {
        let partition = match Partition::new(alloc, config, number) {
            Err(refused) => return Err(refused),
            Ok(partition) => partition,
        };
        let Ok(lows) = fresh_marks(alloc) else {
            return Err(Refused::NoMemory);
        };
        let Ok(looks) = fresh_marks(alloc) else {
            return Err(Refused::NoMemory);
        };
        Ok(Locked {
            partition,
            history: H::fresh(alloc),
            lows,
            looks,
            clock: Clock::starting(0),
            book: 0,
            enters: 0,
        })
    }
}
