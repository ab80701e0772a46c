//! Frames of several links of a group, taken in one visit of it.
ghost use Rattle.std.specs.Prelude.{◌≡◌, ◌<◌, ◌≤◌, List, Some, length, slice_get, take};
ghost use Rattle.std.specs.List.{All};
ghost use Rattle.es_base.specs.Frame.{IsFrame, link_number_of};
ghost use Rattle.es_base.specs.Past.{arrived};
ghost use Rattle.link_rules.specs.Integrity.{passes};
ghost use Rattle.link_core.specs.declared.net_checks.NetChecks.{NetChecks as Checks};
ghost use Rattle.live_system.specs.Burst.{most_in_row};
ghost use Rattle.live_system.specs.Calls.{LiveLink};
ghost use Rattle.live_system.specs.Checked.{AreStanding, TestsEach};
ghost use Rattle.network_calls.specs.Passes.{DoesAt};
ghost use Rattle.live_system.specs.Groups.{HasLinkAt};
ghost use Rattle.live_system.specs.Pass.{Did};
ghost use Rattle.live_system.specs.Rows.{AreForLinks, CountsEach, TookEach, index_at};

use crate::cut::LinkPlace;
use crate::group::Group;
use es_base::{Net, Verdict};
use frame_reader::frame_in;
use link_core::NetChecks;
use network_calls::LinkCounts;
use receiver::{PortOutlet, PortedLink, Reply};

/// Most frames of one visit, and of a chunk of a burst.
pub(crate) const MOST_IN_ROW: usize = 32;

/// Place of the event and verdict, for each frame of a visit; the entries after these mean nothing.
pub(crate) type Answers = [(u64, Verdict); MOST_IN_ROW];

/// For each frame of a visit, whether it passed integrity checking; the entries after these mean nothing.
pub(crate) type Passed = [bool; MOST_IN_ROW];

/// Lets a link take a frame; `passed` says whether it passed integrity checking. Returns its event's place and its
/// verdict.
fn take(
    link: &mut PortedLink<PortOutlet>,
    net: Net,
    passed: bool,
    now: u64,
    octets: &[u8],
) -> (u64, Verdict)
    requires link { link_number_of octets.now ≡ link.old.core.settings.vl.0 }
    requires passed { passed ≡ passes link.old.core.settings link.old.core.past (arrived net now octets.now) }
    requires frame { IsFrame octets.now }
    ensures { Did (arrived net now octets.now) link.old link.new result }
{
    let place = link.received();
    (place, link.receive(net, passed, now, &frame_in(octets)))
}

/// Lets the link at this index of a locked group take a frame; `passed` says whether it passed integrity checking.
/// Returns its event's place and its verdict.
pub(crate) fn take_at(
    group: &mut Group,
    index: usize,
    net: Net,
    passed: bool,
    now: u64,
    octets: &[u8],
) -> (u64, Verdict)
    requires link { HasLinkAt group.old index (λ link. link_number_of octets.now ≡ link.core.settings.vl.0) }
    requires passed { (link : LiveLink) → slice_get group.old index ≡ Some link → passed ≡ passes link.core.settings link.core.past (arrived net now octets.now) }
    requires frame { IsFrame octets.now }
    ensures { DoesAt (λ old new. Did (arrived net now octets.now) old new result) group.old index group.new }
{
    take(&mut group.links[index], net, passed, now, octets)
}

/// A frame with the index of its link in the configuration, and its time, in microseconds.
pub(crate) type Entry<'a> = (usize, (u64, &'a [u8]));

/// Tests frames by what is kept of their links on one network, and notes them, one after another.
pub(crate) fn test_each(
    checks: &mut Vec<NetChecks>,
    places: &[LinkPlace],
    row: &[Entry<'_>],
) -> Passed
    requires few { length row.now ≤ most_in_row }
    requires frames { All (λ e. IsFrame e.1.1.now × (e.0 < length places.now) × (index_at places.now e.0 < length checks.old.items)) row.now }
    ensures { TestsEach (index_at places.now) checks.old.items row.now (take (length row.now) result) checks.new.items }
{
    let mut passed = [false; MOST_IN_ROW];
    'frames: for place in 0..row.len() {
        let (link, (now, octets)) = row[place];
        let number = frame_in(octets).sequence_number;
        let its = &mut checks[places[link].index];
        passed[place] = its.check(number);
        its.note(number, now);
    }
    passed
}

/// Lets links of a locked group take frames, one after another; `passed` says which of them passed integrity checking.
/// Returns their answers.
pub(crate) fn take_each(
    group: &mut Group,
    places: &[LinkPlace],
    net: Net,
    passed: &Passed,
    row: &[Entry<'_>],
) -> Answers
    requires few { length row.now ≤ most_in_row }
    requires passed { (checks : List Checks) × (news : List Checks) × AreStanding net group.old checks × TestsEach (index_at places.now) checks row.now (take (length row.now) passed.now) news }
    requires frames { AreForLinks (index_at places.now) (length places.now) group.old row.now }
    ensures { TookEach (index_at places.now) net group.old row.now (take (length row.now) result) group.new }
{
    let mut answers = [(0, Verdict::Redundant); MOST_IN_ROW];
    'frames: for place in 0..row.len() {
        let (at, (now, octets)) = row[place];
        let index = places[at].index;
        answers[place] = take_at(group, index, net, passed[place], now, octets);
    }
    answers
}

/// Counts the answers of as many frames as there are replies, each on its link, and replies them.
pub(crate) fn tell_each(
    counts: &mut Vec<LinkCounts>,
    places: &[LinkPlace],
    net: Net,
    row: &[Entry<'_>],
    answers: &Answers,
    replies: &mut [Reply],
)
    requires few { length row.now ≤ most_in_row }
    requires room { length replies.old ≡ length row.now }
    requires places { All (λ e. (e.0 < length places.now) × (index_at places.now e.0 < length counts.old.items)) row.now }
    ensures { CountsEach (index_at places.now) net counts.old.items row.now (take (length row.now) answers.now) replies.new counts.new.items }
{
    'frames: for place in 0..row.len() {
        let (at, _) = row[place];
        let index = places[at].index;
        let (shows, verdict) = answers[place];
        let vl = counts[index].vl;
        counts[index].add(net, verdict);
        replies[place] = Reply::Link {
            at,
            vl,
            place: shows,
            verdict,
        };
    }
}
