//! Two threads, of which one runs out of memory: the other gives no further frame. Before they begin a growth of a
//! known size is asked for, as in `without`: whoever refuses growths refuses the first that comes after it in another
//! thread, and counts those that follow. `MOST` lies between those of the frames that are under way then, and those of
//! all frames.
use crate::refusal::{OWN, tell};
use crate::without::mark;
use std::alloc::Global;
use std::process::Abort;
use std::sync::Wait;
use std::thread::Threads;
use test_inputs::{ETHERNET, IP, PAYLOAD, SECOND_LINK, ScriptedReader, ScriptedWriter, UDP};
use test_inputs_end_system::{BUILT_IN, config_of};
use thread_player::play_threads;
use trace_player::{Device, PlayFault};

/// Number of growths that may follow the one that is refused.
const MOST: usize = 25_000;

/// Number of frames of the other network. Each asks for a growth at least, for its octets in its link's history.
const FRAMES: usize = 50_000;

/// The beginning of a frame of the second link.
const ETHERNET_OF_18: &str = "0300000000120200000001200800";

/// How the run ended. It has no clause: a test doesn't need what the player promises.
fn played<R: Abort + Threads + Wait + Sync>(
    rt: &R,
    alloc: Global,
    (a, b): (&str, &str),
) -> Result<(), PlayFault> {
    let config = config_of(alloc, &[BUILT_IN, SECOND_LINK]).expect(rt, OWN);
    let mut a = Device::new(ScriptedReader::of(a.as_bytes()));
    let mut b = Device::new(ScriptedReader::of(b.as_bytes()));
    let written = Vec::new(alloc);
    let mut out = Device::new(ScriptedWriter {
        calls: &[],
        written,
    });
    mark(rt, alloc);
    play_threads(rt, alloc, &config, &mut a, &mut b, &mut out, None)
}

/// The line of a frame with this beginning, with the sequence number 0.
fn line_of(rt: &impl Abort, alloc: Global, ethernet: &str) -> String {
    format!(in alloc; "5 {ethernet}{IP}{UDP}{PAYLOAD}00\n").expect(rt, OWN)
}

/// Network A has one frame of the first link, and B many of the second.
fn check_stopped<R: Abort + Eprint + Threads + Wait + Sync>(rt: &R, alloc: Global) {
    let a = line_of(rt, alloc, ETHERNET);
    let line = line_of(rt, alloc, ETHERNET_OF_18);
    let b = line.repeat(alloc, FRAMES).expect(rt, OWN);
    if let Err(fault) = played(rt, alloc, (a.as_str(), b.as_str())) {
        tell(rt, "play_threads");
        assert!(rt; fault == PlayFault::Memory, "{fault:?}");
    }
}

#[test]
fn a_thread_that_is_out_of_memory_ends_the_other(rt: HostRuntime) {
    check_stopped(&rt, rt.alloc());
}
