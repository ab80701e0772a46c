//! How long a message is fresh.
use es_base::{Freshness, freshness};
use std::process::Abort;

/// The time that it is, that of a message, the refresh period, all in microseconds, and the freshness.
type Row = (u64, u64, u64, Freshness);

fn rows() -> [Row; 6] {
    [
        // At the refresh period, and one microsecond above it.
        (21_000, 1000, 20_000, Freshness::Fresh),
        (21_001, 1000, 20_000, Freshness::Stale),
        // Before the message's time the age is 0.
        (999, 1000, 20_000, Freshness::Fresh),
        (999, 1000, 0, Freshness::Fresh),
        (1000, 1000, 0, Freshness::Fresh),
        (1001, 1000, 0, Freshness::Stale),
    ]
}

fn check(rt: &impl Abort, (now, time, refresh, state): Row) {
    assert_eq!(rt;
        freshness(now, time, refresh),
        state,
        "{now} {time} {refresh}"
    );
}

// rule: PORT-14, PORT-15, REP-5
#[test]
fn a_message_is_fresh_up_to_its_refresh_period(rt: HostRuntime) {
    for row in rows() {
        check(&rt, row);
    }
}
