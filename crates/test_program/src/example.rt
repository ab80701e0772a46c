//! The examples.
use crate::shelf::{ALL, Wanted, check_files};
use std::alloc::Global;
use std::process::Abort;
use std::sync::Wait;
use std::thread::Threads;
use test_inputs::{SECOND_LINK, ScriptedReader};
use vl_config::BUILT_IN;

/// Output of the examples.
const OUTPUT: &str = "1000 A vl 17 0 sampled pos 1
1200 B vl 17 1 redundant
3000 A vl 17 2 sampled pos 2
3100 B vl 17 3 redundant
5000 B vl 17 4 sampled pos 3
5100 B vl 18 0 sampled alt 1
7000 A vl 17 5 sampled pos 4
7400 B vl 17 6 redundant
9000 A vl 17 7 bad-header checksum
9200 B vl 17 8 out-of-sequence
9500 A filtered unknown-link
port pos sampling 4 7000 17 fresh 0102030405060708090a0b0c0d0e0f1011
port nav queuing 0
port alt sampling 1 5100 17 fresh 0102030405060708090a0b0c0d0e0f1011
count 17 A 0 0 1 0 0 0 0 0 0 3 0 0 0
count 17 B 1 3 0 0 0 0 0 0 0 1 0 0 0
count 18 A 0 0 0 0 0 0 0 0 0 0 0 0 0
count 18 B 0 0 0 0 0 0 0 0 0 1 0 0 0
filtered A 0 0 0 0 1
filtered B 0 0 0 0 0
";

const NETWORK_A: &str =
    "# Network A: the time in microseconds, a space, and the frame without its check sequence.
1000 03000000001102000000012008004500002d000100000111cdcc0a010101e0e0001113891388001900000102030405060708090a0b0c0d0e0f101100
3000 03000000001102000000012008004500002d000100000111cdcc0a010101e0e0001113891388001900000102030405060708090a0b0c0d0e0f101101
# Number 2 is lost on this network.
7000 03000000001102000000012008004500002d000100000111cdcc0a010101e0e0001113891388001900000102030405060708090a0b0c0d0e0f101103
# A checksum that isn't that of the header.
9000 03000000001102000000012008004500002d000100000111cdcd0a010101e0e0001113891388001900000102030405060708090a0b0c0d0e0f101104
# A link that isn't configured.
9500 03000000001302000000012008004500002d000100000111cdcb0a010101e0e0001213891388001900000102030405060708090a0b0c0d0e0f101100
";

const NETWORK_B: &str = "# Network B.
1200 03000000001102000000012008004500002d000100000111cdcc0a010101e0e0001113891388001900000102030405060708090a0b0c0d0e0f101100
3100 03000000001102000000012008004500002d000100000111cdcc0a010101e0e0001113891388001900000102030405060708090a0b0c0d0e0f101101
5000 03000000001102000000012008004500002d000100000111cdcc0a010101e0e0001113891388001900000102030405060708090a0b0c0d0e0f101102
5100 03000000001202000000012008004500002d000100000111cdcb0a010101e0e0001213891388001900000102030405060708090a0b0c0d0e0f101100
7400 03000000001102000000012008004500002d000100000111cdcc0a010101e0e0001113891388001900000102030405060708090a0b0c0d0e0f101103
# Three numbers ahead of 3.
9200 03000000001102000000012008004500002d000100000111cdcc0a010101e0e0001113891388001900000102030405060708090a0b0c0d0e0f101106
";

/// Output for fragments that come out of order, on both networks.
const OUTPUT_OF_FRAGMENTS: &str = "1000 A vl 17 0 fragment-held
1100 B vl 17 1 redundant
1150 B vl 17 2 fragmented-sample pos
1200 A vl 17 3 redundant
3000 A vl 17 4 bad-fragment
port pos sampling empty
port nav queuing 0
port alt sampling empty
count 17 A 0 1 0 1 1 0 0 0 0 0 0 0 0
count 17 B 0 1 0 0 0 0 0 0 1 0 0 0 0
count 18 A 0 0 0 0 0 0 0 0 0 0 0 0 0
count 18 B 0 0 0 0 0 0 0 0 0 0 0 0 0
filtered A 0 0 0 0 0
filtered B 0 0 0 0 0
";

const FRAGMENTS_A: &str = "# Network A: the last fragment of a datagram comes first.
1000 030000000011020000000120080045000024000200020111cdd20a010101e0e00011b0b1b2b3b4b5b6b7b8b9babbbcbdbebf00000000000000000001
1200 030000000011020000000120080045000024000220000111add40a010101e0e000111389138800200000a0a1a2a3a4a5a6a700000000000000000002
# Twelve octets, and more fragments follow: no multiple of eight.
3000 030000000011020000000120080045000020000220000111add80a010101e0e000111389138800200000a0a1a2a30000000000000000000000000003
";

const FRAGMENTS_B: &str = "# Network B has the first fragment before A has it.
1100 030000000011020000000120080045000024000200020111cdd20a010101e0e00011b0b1b2b3b4b5b6b7b8b9babbbcbdbebf00000000000000000001
1150 030000000011020000000120080045000024000220000111add40a010101e0e000111389138800200000a0a1a2a3a4a5a6a700000000000000000002
";

/// Two links play these traces to this output.
fn check_example(
    rt: &(impl Abort + Threads + Wait + Sync),
    alloc: Global,
    a: &str,
    b: &str,
    output: &str,
) {
    let config = format!(in alloc; "{BUILT_IN}{SECOND_LINK}").expect(rt, "memory");
    let files = (
        Ok(config.as_bytes()),
        Ok(ScriptedReader::of(a.as_bytes())),
        Ok(ScriptedReader::of(b.as_bytes())),
    );
    let wanted = Wanted {
        status: 0,
        output,
        errors: "",
        asked: ALL,
    };
    check_files(rt, alloc, files, wanted);
}

// rule: CMD-6, FAULT-1
#[test]
fn the_example_of_the_readme_prints_what_stands_there(rt: HostRuntime) {
    check_example(&rt, rt.alloc(), NETWORK_A, NETWORK_B, OUTPUT);
}

// rule: PORT-2
#[test]
fn fragments_are_joined_from_both_networks(rt: HostRuntime) {
    let output = OUTPUT_OF_FRAGMENTS;
    check_example(&rt, rt.alloc(), FRAGMENTS_A, FRAGMENTS_B, output);
}
