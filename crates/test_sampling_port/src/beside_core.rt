//! A schedule of the slot core, played with the seats of a running port with as many readers, eight. What is
//! loaded is what the core has at that place at that moment. Each message has no octets and the time 0.
ghost use Rattle.std.specs.Prelude.{◌≡◌, ◌≢◌, ◌+◌, ◌*◌, ◌<◌, ◌≤◌, [], ◌∷◌, length, None};
ghost use Rattle.slot_core.specs.Allowed.{MayScan};
ghost use Rattle.slot_core.specs.Steps.{scans};
ghost use Rattle.slot_core.specs.Words.{slot_of};
ghost use Rattle.sampling_port.specs.Plays.{writes};
ghost use Rattle.sampling_port.specs.Rule.{first_reader, new_writer_log};
ghost use Rattle.sampling_port.specs.Seats.{writer_with};
ghost use Rattle.sampling_port.specs.Writes.{IsAtRest};

use crate::seats::{load_first, look_again};
use sampling_port::steps::{ReaderSeat, WriterSeat, open_seats};
use slot_core::CoreEvent::{Announce, Clear, LoadFirst, LoadSecond, Scan, StoreLatest, StoreWord};
use slot_core::{Core, CoreEvent};
use std::alloc::Global;
use std::process::Abort;

fn take(rt: &impl Abort, alloc: Global, core: &mut Core, event: CoreEvent) {
    let answer = core.step(alloc, &event);
    assert!(rt; answer == Ok(()), "{event:?}: {answer:?}");
}

/// Scan finds no announcement of this reader, in the core and on the port.
fn scan(rt: &impl Abort, alloc: Global, core: &mut Core, writer: &mut WriterSeat<8>, reader: usize)
    requires { MayScan 8 writer.old.knows.view reader }
    ensures { writer.new ≡ writer_with writer.old (writes writer.old.knows (scans writer.old.knows.view 0)) }
{
    take(rt, alloc, core, Scan { reader });
    let found = writer.scan(reader);
    assert!(rt; found == core.announcement(reader), "{found}");
    assert!(rt; found == 0);
}

/// Scan of each reader.
fn scan_each(rt: &impl Abort, alloc: Global, core: &mut Core, writer: &mut WriterSeat<8>)
    requires { IsAtRest writer.old.knows.view }
    ensures { writer.new.knows.view ≡ record writer.old.knows.view { scanned = None ∷ None ∷ None ∷ None ∷ None ∷ None ∷ None ∷ None ∷ [] } }
{
    scan(rt, alloc, core, writer, 0);
    scan(rt, alloc, core, writer, 1);
    scan(rt, alloc, core, writer, 2);
    scan(rt, alloc, core, writer, 3);
    scan(rt, alloc, core, writer, 4);
    scan(rt, alloc, core, writer, 5);
    scan(rt, alloc, core, writer, 6);
    scan(rt, alloc, core, writer, 7);
}

/// StoreWord of both words, in the core and on the port.
fn store_words(
    rt: &impl Abort,
    alloc: Global,
    core: &mut Core,
    writer: &mut WriterSeat<8>,
    slot: usize,
)
    requires scanned { writer.old.knows.view.scanned ≡ None ∷ None ∷ None ∷ None ∷ None ∷ None ∷ None ∷ None ∷ [] }
    requires stored { writer.old.knows.view.stored ≡ [] }
    requires slot { slot < 10 }
    requires apart { writer.old.knows.view.last ≢ 0 → slot ≢ slot_of writer.old.knows.view.last }
    ensures { writer.new.knows.view ≡ record writer.old.knows.view { chosen = slot; stored = 0 ∷ 0 ∷ [] } }
{
    take(
        rt,
        alloc,
        core,
        StoreWord {
            slot,
            index: 0,
            word: 0,
        },
    );
    writer.store_word(slot, 0, 0);
    take(
        rt,
        alloc,
        core,
        StoreWord {
            slot,
            index: 1,
            word: 0,
        },
    );
    writer.store_word(slot, 1, 0);
}

/// StoreLatest of this message, in the core and on the port.
fn publish_in(
    rt: &impl Abort,
    alloc: Global,
    core: &mut Core,
    writer: &mut WriterSeat<8>,
    number: u64,
    slot: usize,
)
    requires rest { IsAtRest writer.old.knows.view }
    requires number { (number ≡ length writer.old.knows.view.published + 1) × (number ≤ 100) }
    requires slot { slot < 10 }
    requires apart { writer.old.knows.view.last ≢ 0 → slot ≢ slot_of writer.old.knows.view.last }
    ensures rest { IsAtRest writer.new.knows.view }
    ensures number { length writer.new.knows.view.published ≡ number }
    ensures last { writer.new.knows.view.last ≡ 16 * number + slot }
{
    scan_each(rt, alloc, core, writer);
    store_words(rt, alloc, core, writer, slot);
    take(rt, alloc, core, StoreLatest);
    let word = 16 * number + slot as u64;
    writer.store_latest(word);
    assert!(rt; core.latest() == word, "{word}");
}

/// Messages 2 to 6, in slots 1 and 0 by turns.
fn publish_five(rt: &impl Abort, alloc: Global, core: &mut Core, writer: &mut WriterSeat<8>)
    requires rest { IsAtRest writer.old.knows.view }
    requires one { (length writer.old.knows.view.published ≡ 1) × (writer.old.knows.view.last ≡ 16) }
    ensures rest { IsAtRest writer.new.knows.view }
    ensures six { (length writer.new.knows.view.published ≡ 6) × (writer.new.knows.view.last ≡ 97) }
{
    publish_in(rt, alloc, core, writer, 2, 1);
    publish_in(rt, alloc, core, writer, 3, 0);
    publish_in(rt, alloc, core, writer, 4, 1);
    publish_in(rt, alloc, core, writer, 5, 0);
    publish_in(rt, alloc, core, writer, 6, 1);
}

/// Reader 0 looks after message 1, and again after message 6. At last a scan finds its announcement cleared.
fn check_beside_core(
    rt: &impl Abort,
    alloc: Global,
    mut writer: WriterSeat<8>,
    reader: &mut ReaderSeat<8>,
)
    requires writer { writer.knows ≡ new_writer_log }
    requires reader { reader.old.knows ≡ first_reader }
{
    let mut core = Core::opening(alloc);
    publish_in(rt, alloc, &mut core, &mut writer, 1, 0);
    take(rt, alloc, &mut core, LoadFirst { reader: 0 });
    assert!(rt; core.latest() == 16);
    load_first(rt, reader, 16);
    publish_five(rt, alloc, &mut core, &mut writer);
    take(rt, alloc, &mut core, Announce { reader: 0 });
    assert!(rt; core.announcement(0) == 16);
    take(rt, alloc, &mut core, LoadSecond { reader: 0 });
    assert!(rt; core.latest() == 97);
    look_again(rt, reader, 16, 97);
    take(rt, alloc, &mut core, Clear { reader: 0 });
    reader.clear();
    publish_in(rt, alloc, &mut core, &mut writer, 7, 0);
}

// rule: SAMP-19, SAMP-20
#[test]
fn a_running_port_loads_what_the_core_loads(rt: HostRuntime) {
    let (writer, mut seats) = open_seats::<8>(rt.alloc()).expect(&rt, "memory");
    check_beside_core(&rt, rt.alloc(), writer, &mut seats[0]);
}
