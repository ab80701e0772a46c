//! A system that keeps no frame, whose opening alone takes memory.
use crate::cases::{Case, joined, overflowed};
use crate::refusal::tell;
use es_base::LinkNo;
use es_base::Net::A;
use live_system::Reply;
use std::alloc::Global;
use std::process::Abort;
use std::sync::Wait;
use test_inputs_live_system::Live;

/// An opening that lacks memory leaves nothing; the same one made again opens the system.
fn open(rt: &(impl Abort + Eprint), alloc: Global, case: &Case) -> Live {
    match Live::open(alloc, &case.config) {
        Ok(live) => live,
        Err(_) => {
            tell(rt, "LiveSystem::open");
            Live::open(alloc, &case.config).expect(rt, "memory")
        }
    }
}

/// Each frame has its place and its verdict.
fn check_opened(rt: &(impl Abort + Eprint + Wait), alloc: Global, case: &Case) {
    let mut live = open(rt, alloc, case);
    let mut place = 0u64;
    for row in &case.rows {
        let reply = live.receive(rt, A, row.time, &row.octets);
        let wanted = Reply::Link {
            at: 0,
            vl: LinkNo(17),
            place,
            verdict: row.verdict,
        };
        assert!(rt; reply == wanted, "{reply:?}");
        place = place.wrapping_add(1);
    }
    for link in &live.settle().links {
        assert!(rt; link.received() == place);
    }
}

// rule: EMB-39
#[test]
fn a_system_that_keeps_no_frame_is_opened(rt: HostRuntime) {
    check_opened(&rt, rt.alloc(), &joined(&rt, rt.alloc()));
    check_opened(&rt, rt.alloc(), &overflowed(&rt, rt.alloc()));
}
