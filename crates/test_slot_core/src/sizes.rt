//! The sizes of a port as numbers. A change of a limit, in its definition and in the code alike, shows
//! here.
use crate::schedule::check_value;
use slot_core::{LONGEST_MESSAGE, MOST_MESSAGES, READERS, SLOTS, TABLE_WORDS, WORDS};

// rule: SAMP-4, SAMP-5, SAMP-6
#[test]
fn a_port_has_its_sizes(rt: HostRuntime) {
    check_value(&rt, "readers", READERS as u64, 8);
    check_value(&rt, "slots", SLOTS as u64, 10);
    check_value(&rt, "longest message", LONGEST_MESSAGE, 1471);
    check_value(&rt, "words", WORDS as u64, 186);
    check_value(&rt, "table words", TABLE_WORDS as u64, 1869);
    check_value(
        &rt,
        "most messages",
        MOST_MESSAGES,
        1_152_921_504_606_846_975,
    );
}
