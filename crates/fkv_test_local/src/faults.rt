//! Devices of which one call fails, each in turn: what fails is told once, the store stays the map that it was, and goes on.
use crate::beside::{Outcome, Plan, outcome_of};
use fkv_device::MemoryDevice;
use fkv_functions::{Refused, SumFns};
use fkv_test_devices::{FailingDevice, Fault};
use std::alloc::Global;

/// What operations come to over two partitions of a device of which the call after so many fails, where all is as the plain map has
/// it, and how that call was told, if it came.
fn run(alloc: Global, calls: u64, plan: &Plan) -> Option<(Outcome, Option<Refused>)> {
    let fault = Fault::after(calls);
    let device = FailingDevice::new(alloc, MemoryDevice::new(alloc), &fault);
    let seen = outcome_of(alloc, SumFns, device, 1, plan)?;
    Some((seen, fault.told()))
}

/// Whether a fault that came was told, once, as the device told it.
fn is_told(ran: Option<(Outcome, Option<Refused>)>) -> bool {
    match ran {
        Some((seen, told)) => seen.last == told && (seen.refused == 1) == told.is_some(),
        None => false,
    }
}

/// More calls than a plan makes.
const CALLS: u64 = 400;

/// Without compactions, and with some.
const PLANS: [Plan; 2] = [
    Plan {
        seed: 11,
        keys: 30,
        operations: 80,
        span: 1_000,
    },
    Plan {
        seed: 12,
        keys: 20,
        operations: 80,
        span: 25,
    },
];

#[test]
fn each_call_of_a_device_fails_in_turn(rt: HostRuntime) {
    for plan in PLANS {
        let mut came = 0;
        for calls in 0..CALLS {
            let ran = run(rt.alloc(), calls, &plan);
            assert!(rt; is_told(ran), "{plan:?}, call {calls}: {ran:?}");
            if matches!(ran, Some((_, Some(_)))) {
                came = calls;
            }
        }
        // many calls failed, and the last ones were never made
        assert!(rt; 20 < came && came < 300, "{came}");
    }
}
