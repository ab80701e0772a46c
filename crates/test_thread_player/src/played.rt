//! Traces given to the player with two threads, and to the player with one.
use std::alloc::Global;
use std::process::Abort;
use std::sync::Wait;
use std::thread::Threads;
use test_inputs::{IP, PAYLOAD, ScriptedReader, ScriptedWriter, UDP, WriteCall, frame_of};
use thread_player::play_threads;
use trace_player::{Device, PlayFault, play_texts};
use vl_config::{Config, ConfigFault, read_config};

/// The configuration of this text. It has no clause: a test doesn't need what each document comes to.
fn read(alloc: Global, text: &str) -> Result<Config, ConfigFault> {
    read_config(alloc, text)
}

pub(crate) fn config_of(rt: &impl Abort, alloc: Global, text: &str) -> Config {
    read(alloc, text).expect(rt, "a configuration")
}

/// Result of a run of the player, and its devices after it.
#[derive(Drop)]
pub(crate) struct Run<'a> {
    pub answer: Result<(), PlayFault>,
    pub a: Device<ScriptedReader<'a>>,
    pub b: Device<ScriptedReader<'a>>,
    pub out: Device<ScriptedWriter<'a>>,
}

/// A run with two threads over these readers and a writer that does this, with a report at this time in
/// microseconds. It has no clause: a test doesn't need what the player promises.
pub(crate) fn run_over<'a, R: Threads + Wait + Sync>(
    rt: &R,
    alloc: Global,
    config: &Config,
    (a, b): (ScriptedReader<'a>, ScriptedReader<'a>),
    calls: &'a [WriteCall],
    at: Option<u64>,
) -> Run<'a> {
    let written = Vec::new(alloc);
    let mut a = Device::new(a);
    let mut b = Device::new(b);
    let mut out = Device::new(ScriptedWriter { calls, written });
    let answer = play_threads(rt, alloc, config, &mut a, &mut b, &mut out, at);
    Run { answer, a, b, out }
}

/// The output of two threads for these traces.
pub(crate) fn threads_output<R: Abort + Threads + Wait + Sync>(
    rt: &R,
    alloc: Global,
    config: &Config,
    (a, b): (&str, &str),
    at: Option<u64>,
) -> Vec<u8> {
    let readers = (
        ScriptedReader::of(a.as_bytes()),
        ScriptedReader::of(b.as_bytes()),
    );
    let run = run_over(rt, alloc, config, readers, &[], at);
    assert!(rt; run.answer == Ok(()), "{:?}", run.answer);
    run.out.inner.written
}

/// The output of one thread for these traces. It has no clause, as above.
fn output_of(alloc: Global, config: &Config, (a, b): (&str, &str)) -> Result<Vec<u8>, PlayFault> {
    play_texts(alloc, config, a.as_bytes(), b.as_bytes(), None)
}

pub(crate) fn output_of_one<R: Abort>(
    rt: &R,
    alloc: Global,
    config: &Config,
    traces: (&str, &str),
) -> Vec<u8> {
    output_of(alloc, config, traces).expect(rt, "an output")
}

/// Adds the line of the smallest frame of this link, with this sequence number, that came at `time` microseconds.
pub(crate) fn add_frame(
    rt: &impl Abort,
    alloc: Global,
    trace: &mut String,
    time: u64,
    vl: u16,
    sequence_number: u8,
) {
    let ethernet = format!(in alloc; "03000000{vl:04x}0200000001200800").expect(rt, "memory");
    let texts = [ethernet.as_str(), IP, UDP, PAYLOAD];
    let frame = frame_of(alloc, &texts, sequence_number).expect(rt, "a frame");
    add_line(rt, alloc, trace, time, &frame);
}

/// Adds the line of a frame with these octets that came at `time` microseconds.
pub(crate) fn add_line(
    rt: &impl Abort,
    alloc: Global,
    trace: &mut String,
    time: u64,
    frame: &[u8],
) {
    let digits = hex::encode(alloc, frame).expect(rt, "memory");
    writeln!(trace, "{time} {digits}").expect(rt, "memory");
}

/// The links 17, 18, 19, 33 and 273, each with a sampling port, `p` and its number.
pub(crate) fn five_links(rt: &impl Abort, alloc: Global) -> String {
    let mut text = String::new(alloc);
    for vl in NUMBERS {
        writeln!(
            text,
            "[[link]]\nvl = {vl}\n{LIMITS}\nname = \"p{vl}\"\n{PORT}"
        )
        .expect(rt, "memory");
    }
    text
}

/// Numbers that are near one another, and some that differ by 16 and by 256.
pub(crate) const NUMBERS: [u16; 5] = [17, 18, 19, 33, 273];

const LIMITS: &str = "skew_max_us = 1000000\nreassembly_us = 0\n[[link.port]]";

const PORT: &str =
    "kind = \"sampling\"\naddress = \"224.224.0.17\"\nudp = 5000\nrefresh_us = 20000";
