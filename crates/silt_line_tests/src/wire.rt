// What no contract says: texts, letter for letter.

pub(crate) mod batches;
pub(crate) mod facts;
mod sessions;
mod swaps;

use silt_event::{Layout, Place, Progress, Refusal, Reply, Report};
use silt_wire::{LineFault, print_fault, print_reply, print_report};
use std::process::Abort;
use std::test::Fail;

#[test]
fn prints_replies(rt: HostRuntime) -> Result<(), Fail> {
    for (refusal, text) in [
        (Refusal::NotFormatted, "refused 1 NotFormatted"),
        (Refusal::Damaged(Place::Header), "refused 3 Damaged header"),
        (Refusal::Damaged(Place::Length), "refused 3 Damaged length"),
        (Refusal::Damaged(Place::Slot(1)), "refused 3 Damaged slot 1"),
        (Refusal::Damaged(Place::NoSlot), "refused 3 Damaged no slot"),
        (
            Refusal::Damaged(Place::Log { region: 0, row: 10 }),
            "refused 3 Damaged log 0 row 10",
        ),
        (
            Refusal::Damaged(Place::Hash { region: 1, slot: 7 }),
            "refused 3 Damaged hash 1 slot 7",
        ),
        (
            Refusal::Damaged(Place::HashDigest(12)),
            "refused 3 Damaged hash 12 digest",
        ),
        (
            Refusal::Damaged(Place::Sorted(1)),
            "refused 3 Damaged sorted 1",
        ),
        (
            Refusal::Damaged(Place::SortedDigest),
            "refused 3 Damaged sorted digest",
        ),
        (Refusal::Damaged(Place::Charge), "refused 3 Damaged charge"),
        (Refusal::Crowded, "refused 4 Crowded"),
        (Refusal::Device(()), "refused 5 Device"),
        (Refusal::NoMemory, "refused 6 NoMemory"),
        (Refusal::StoreFull, "refused 7 StoreFull"),
        (Refusal::NoRoom, "refused 8 NoRoom"),
        (Refusal::Failed, "refused 9 Failed"),
        (Refusal::Spent, "refused 10 Spent"),
    ] {
        let reply = Reply::Refused(refusal);
        assert_eq!(rt; print_reply(rt.alloc(), &reply)?.as_str(), text);
    }
    Ok(())
}

#[test]
fn prints_what_a_store_did(rt: HostRuntime) -> Result<(), Fail> {
    let replies: [(Reply<()>, &str); 6] = [
        (Reply::Accepted(7), "accepted 7"),
        (Reply::Acknowledged(0), "acknowledged 0"),
        (Reply::Absent, "absent"),
        (Reply::Differs, "differs"),
        (Reply::Unsettled(10), "unsettled 10"),
        (Reply::NotServed, "refused 20 BadLine"),
    ];
    for (reply, text) in replies {
        assert_eq!(rt; print_reply(rt.alloc(), &reply)?.as_str(), text);
    }
    Ok(())
}

#[test]
fn prints_faults(rt: HostRuntime) -> Result<(), Fail> {
    for (fault, text) in [
        (LineFault::NoMemory, "refused 6 NoMemory"),
        (LineFault::BadLine, "refused 20 BadLine"),
        (LineFault::BadKey, "refused 21 BadKey"),
        (LineFault::BadValue, "refused 22 BadValue"),
        (LineFault::LineTooLong, "refused 23 LineTooLong"),
    ] {
        assert_eq!(rt; print_fault(rt.alloc(), fault)?.as_str(), text);
    }
    Ok(())
}

#[test]
fn prints_progress(rt: HostRuntime) -> Result<(), Fail> {
    for (progress, text) in [
        (Progress::Idle, "idle"),
        (Progress::Waiting, "waiting"),
        (Progress::Moved, "moved"),
        (Progress::Finished, "finished"),
    ] {
        let reply: Reply<()> = Reply::Progress(progress);
        assert_eq!(rt; print_reply(rt.alloc(), &reply)?.as_str(), text);
    }
    Ok(())
}

// Each number has its own place, also a number of many digits.
#[test]
fn prints_reports(rt: HostRuntime) -> Result<(), Fail> {
    let mut report = Report {
        generation: 9_223_372_036_854_775_807,
        active: 1,
        active_rows: 131_072,
        frozen: 7,
        frozen_rows: 20,
        hashes: 16,
        hash_rows: 30,
        entries: 16_777_216,
        charge: 50,
        layout: Layout::Two,
    };
    let text =
        "generation 9223372036854775807\nactive log 1 rows 131072\nfrozen logs 7 rows 20\nhash stores 16 rows 30\nsorted entries 16777216\ncharge 50\nlayout 2\n";
    assert_eq!(rt; print_report(rt.alloc(), &report)?.as_str(), text);
    report.layout = Layout::One;
    assert!(rt;
        print_report(rt.alloc(), &report)?
            .as_str()
            .ends_with("\ncharge 50\nlayout 1\n")
    );
    Ok(())
}
