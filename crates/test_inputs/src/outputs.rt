//! Whole outputs of the player with the built-in configuration, worked out by hand from the formats: of the smallest frame
//! for `pos`, which came on A at 1000 microseconds with sequence number 0, and of no frame.

/// The frame's line of a trace.
pub const LINE: &str = "1000 03000000001102000000012008004500002d000100000111cdcc0a010101e0e00011\
    13891388001900000102030405060708090a0b0c0d0e0f101100\n";

/// The output for it, if its message is fresh.
pub const FRESH: &str = "1000 A vl 17 0 sampled pos 1\n\
    port pos sampling 1 1000 17 fresh 0102030405060708090a0b0c0d0e0f1011\n\
    port nav queuing 0\n\
    count 17 A 0 0 0 0 0 0 0 0 0 1 0 0 0\n\
    count 17 B 0 0 0 0 0 0 0 0 0 0 0 0 0\n\
    filtered A 0 0 0 0 0\n\
    filtered B 0 0 0 0 0\n";

/// The output for it, if its message is stale.
pub const STALE: &str = "1000 A vl 17 0 sampled pos 1\n\
    port pos sampling 1 1000 17 stale 0102030405060708090a0b0c0d0e0f1011\n\
    port nav queuing 0\n\
    count 17 A 0 0 0 0 0 0 0 0 0 1 0 0 0\n\
    count 17 B 0 0 0 0 0 0 0 0 0 0 0 0 0\n\
    filtered A 0 0 0 0 0\n\
    filtered B 0 0 0 0 0\n";

/// The output for two empty traces.
pub const NO_FRAMES: &str = "port pos sampling empty\n\
    port nav queuing 0\n\
    count 17 A 0 0 0 0 0 0 0 0 0 0 0 0 0\n\
    count 17 B 0 0 0 0 0 0 0 0 0 0 0 0 0\n\
    filtered A 0 0 0 0 0\n\
    filtered B 0 0 0 0 0\n";
