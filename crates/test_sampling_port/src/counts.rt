//! How many steps a publication takes, and a read that nothing disturbs, as contracts count them: with eight
//! readers, and with four. That a message is published and found is tested; how many steps that took is proved.
ghost use Rattle.std.specs.Prelude.{◌≡◌, ◌+◌, ◌/◌};

use crate::messages::{open, publish};
use sampling_port::{Read, Reader, Writer};
use std::process::Abort;

/// A read with one try gets a message of so many octets.
fn read_whole<const READERS: usize>(rt: &impl Abort, reader: &mut Reader<READERS>, octets: usize)
    ensures { reader.new.steps ≡ reader.old.steps + (6 + (octets + 7) / 8) }
{
    match reader.read(1, &mut [0; 1471]) {
        Read::Message { len, .. } => assert!(rt; len == octets, "{len}"),
        answer => panic!(rt; "{answer:?}"),
    }
}

fn none<const READERS: usize>(
    rt: &impl Abort,
    writer: &mut Writer<READERS>,
    reader: &mut Reader<READERS>,
)
    ensures publication { writer.new.steps ≡ writer.old.steps + (READERS + 3) }
    ensures read { reader.new.steps ≡ reader.old.steps + 6 }
{
    publish(rt, writer, 0, &[], 1);
    read_whole(rt, reader, 0);
}

fn seventeen<const READERS: usize>(
    rt: &impl Abort,
    writer: &mut Writer<READERS>,
    reader: &mut Reader<READERS>,
)
    ensures publication { writer.new.steps ≡ writer.old.steps + (READERS + 6) }
    ensures read { reader.new.steps ≡ reader.old.steps + 9 }
{
    publish(rt, writer, 0, &[0; 17], 2);
    read_whole(rt, reader, 17);
}

fn longest<const READERS: usize>(
    rt: &impl Abort,
    writer: &mut Writer<READERS>,
    reader: &mut Reader<READERS>,
)
    ensures publication { writer.new.steps ≡ writer.old.steps + (READERS + 187) }
    ensures read { reader.new.steps ≡ reader.old.steps + 190 }
{
    publish(rt, writer, 0, &[0; 1471], 3);
    read_whole(rt, reader, 1471);
}

/// With eight readers.
fn check_eight(rt: &impl Abort, writer: &mut Writer<8>, reader: &mut Reader<8>)
    ensures publications { writer.new.steps ≡ writer.old.steps + (11 + 14 + 195) }
    ensures reads { reader.new.steps ≡ reader.old.steps + (6 + 9 + 190) }
{
    none(rt, writer, reader);
    seventeen(rt, writer, reader);
    longest(rt, writer, reader);
}

/// With four.
fn check_four(rt: &impl Abort, writer: &mut Writer<4>, reader: &mut Reader<4>)
    ensures publications { writer.new.steps ≡ writer.old.steps + (7 + 10 + 191) }
    ensures reads { reader.new.steps ≡ reader.old.steps + (6 + 9 + 190) }
{
    none(rt, writer, reader);
    seventeen(rt, writer, reader);
    longest(rt, writer, reader);
}

// rule: SAMP-22
#[test]
fn a_publication_and_a_read_take_so_many_steps(rt: HostRuntime) {
    let (mut writer, mut readers) = open::<8>(&rt, rt.alloc());
    check_eight(&rt, &mut writer, &mut readers[7]);
    let (mut writer, mut readers) = open::<4>(&rt, rt.alloc());
    check_four(&rt, &mut writer, &mut readers[3]);
}
