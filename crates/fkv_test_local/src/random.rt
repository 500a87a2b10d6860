//! Random operations beside the plain map, in memory and on files.
use crate::PARTITION_BITS;
use crate::beside::{Outcome, Plan, SMALL, outcome_of};
use fkv_device::{FileDevice, MemoryDevice};
use fkv_functions::{CappedSumFns, SumFns};
use std::fs;
use std::test::Fail;

/// Whether a run was right, refused nothing, and had enough of each kind: updates that are declined, where they may be, updates that
/// were made merges, where keys leave memory and the functions merge, and a log whose start was cut, where it was to be.
fn is_lively(seen: Option<Outcome>, plan: &Plan, declines: bool) -> bool {
    match seen {
        Some(seen) => {
            seen.refused == 0
                && seen.done > plan.operations / 4
                && (seen.declined > 0) == declines
                && (seen.merged == 0 || !declines)
                && (seen.merged > 0 || declines || plan.keys < 50)
                && (seen.cuts > 0) == (plan.span <= plan.operations)
        }
        None => false,
    }
}

const NEVER: u64 = 1_000_000;

/// Plans over memory: few keys, so that most values change in place, and many, so that most are read from the device; compacted
/// never, now and then, and often.
const PLANS: [Plan; 5] = [
    Plan {
        seed: 1,
        keys: 6,
        operations: 500,
        span: NEVER,
    },
    Plan {
        seed: 2,
        keys: 50,
        operations: 2_000,
        span: 500,
    },
    Plan {
        seed: 3,
        keys: 50,
        operations: 500,
        span: 20,
    },
    Plan {
        seed: 4,
        keys: 400,
        operations: 2_000,
        span: NEVER,
    },
    Plan {
        seed: 5,
        keys: 400,
        operations: 1_000,
        span: 300,
    },
];

#[test]
fn random_operations_in_memory(rt: HostRuntime) {
    for plan in PLANS {
        for bits in PARTITION_BITS {
            let device = MemoryDevice::new(rt.alloc());
            let seen = outcome_of(rt.alloc(), SumFns, device, bits, &plan);
            assert!(rt; is_lively(seen, &plan, false), "{plan:?} {bits}: {seen:?}");
            let device = MemoryDevice::new(rt.alloc());
            let seen = outcome_of(rt.alloc(), CappedSumFns, device, bits, &plan);
            assert!(rt;
                is_lively(seen, &plan, true),
                "capped, {plan:?} {bits}: {seen:?}"
            );
        }
    }
}

/// Plans over files.
const FILED: [Plan; 2] = [
    Plan {
        seed: 6,
        keys: 150,
        operations: 400,
        span: NEVER,
    },
    Plan {
        seed: 7,
        keys: 50,
        operations: 400,
        span: 90,
    },
];

#[test]
fn random_operations_on_files(rt: HostRuntime) -> Result<(), Fail> {
    for plan in FILED {
        for bits in PARTITION_BITS {
            let folder = String::from_str(rt.alloc(), "local_files")?;
            let device = FileDevice::new(rt.clone()?, rt.alloc(), folder, SMALL.page_bits as u32);
            let seen = outcome_of(rt.alloc(), SumFns, device, bits, &plan);
            assert!(rt; is_lively(seen, &plan, false), "{plan:?} {bits}: {seen:?}");
        }
    }
    fs::remove_dir_all(&rt, "local_files")?;
    Ok(())
}
