//! A device of which one call fails, behind two workers: a run tells that call's fault, or makes the whole table, in memory or in
//! pages of the device.
//!
//! In which order two threads call a device is not fixed, so no row says which call fails: each call does in turn, and the run
//! has to tell the fault that came.
use crate::spilled::spilled_over;
use crate::tables::{LETTERS, LETTERS_TABLE, SMALL, summed_over};
use fkv_device::MemoryDevice;
use fkv_feeds::RowMode;
use fkv_functions::{Refused, SumFns};
use fkv_histories::{Audited, Plain, Recorder};
use fkv_store::Open;
use fkv_test_devices::{FailingDevice, Fault};
use std::alloc::Global;
use std::rt::Clock;
use std::sync::Wait;
use std::test::Fail;
use std::thread::Threads;

/// More calls of a device than a run makes.
const CALLS: u64 = 1_000;

/// How a run ends of which one call of the device fails, if it makes so many.
#[derive(Clone, Copy, PartialEq)]
enum End {
    /// No call failed, and the table is whole.
    Whole,
    /// That call's fault is told, which has this code.
    Fault(u8),
    /// Anything else.
    Other,
}

/// How a run of two workers ends where the call after so many fails; its table is in memory or spilled.
fn ended<H: Recorder<SumFns> + Send, T: Threads + Wait + Clock + Sync>(
    rt: &T,
    alloc: Global,
    calls: u64,
    spills: bool,
) -> End {
    let fault = Fault::after(calls);
    let device = FailingDevice::new(alloc, MemoryDevice::new(alloc), &fault);
    let feeds: [&[u8]; 2] = [LETTERS, b"t,1\n"];
    let made = if spills {
        spilled_over::<H, _, _>(rt, alloc, &feeds, 2, &SMALL, device, RowMode::Update)
    } else {
        summed_over::<H, _, _, _>(rt, alloc, &feeds, 2, &SMALL, device, &Open)
    };
    match made {
        Ok(text) if fault.told() == None && text.as_slice() == LETTERS_TABLE => End::Whole,
        Err(Refused::Device { code, page })
            if fault.told() == Some(Refused::Device { code, page }) => { End::Fault(code) }
        _ => End::Other,
    }
}

/// The call by whose failure a run ends as none may, each call failing in turn until a run makes no more calls. It is past the
/// last of them where there is no such run, or where no call to open, none to write or none to read has failed by then.
fn first_other<H: Recorder<SumFns> + Send, T: Threads + Wait + Clock + Sync>(
    rt: &T,
    alloc: Global,
    spills: bool,
) -> Option<u64> {
    let mut seen = [false; 3];
    for calls in 0..CALLS {
        match ended::<H, _>(rt, alloc, calls, spills) {
            End::Whole if seen == [true; 3] => return None,
            End::Fault(1) => seen[0] = true,
            End::Fault(2) => seen[1] = true,
            End::Fault(3) => seen[2] = true,
            End::Whole => return Some(CALLS),
            _ => return Some(calls),
        }
    }
    Some(CALLS)
}

#[test]
fn each_call_of_a_device_fails(rt: HostRuntime) -> Result<(), Fail> {
    for spills in [false, true] {
        let audited = first_other::<Audited<SumFns>, _>(&rt, rt.alloc(), spills);
        assert!(rt; audited == None, "call {audited:?} {spills}");
        let plain = first_other::<Plain, _>(&rt, rt.alloc(), spills);
        assert!(rt; plain == None, "call {plain:?} {spills}");
    }
    Ok(())
}

/// The configuration is asked first, then the device, and the feeds are read last.
#[test]
fn order_of_refusals(rt: HostRuntime) -> Result<(), Fail> {
    let alloc = rt.alloc();
    let feeds: [&[u8]; 1] = [b"a\n"];
    let fault = Fault::after(0);
    let device = FailingDevice::new(alloc, MemoryDevice::new(alloc), &fault);
    let none = summed_over::<Plain, _, _, _>(&rt, alloc, &feeds, 0, &SMALL, device, &Open);
    assert!(rt; none == Err(Refused::BadConfig));
    let device = FailingDevice::new(alloc, MemoryDevice::new(alloc), &fault);
    let unopened = summed_over::<Plain, _, _, _>(&rt, alloc, &feeds, 1, &SMALL, device, &Open);
    assert!(rt; unopened == Err(Refused::Device { code: 1, page: 0 }));
    let device = FailingDevice::new(alloc, MemoryDevice::new(alloc), &fault);
    let unread = summed_over::<Plain, _, _, _>(&rt, alloc, &feeds, 1, &SMALL, device, &Open);
    assert!(rt; unread == Err(Refused::BadRow { feed: 1, row: 1 }));
    Ok(())
}
