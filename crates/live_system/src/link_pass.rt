//! One network's pass on a group of links.
ghost use Rattle.std.specs.Prelude.{◌≡◌, ◌<◌, ◌≤◌, ◌+◌, ◌++◌, ℕ, List, [], Some, IfNone, IfOk, IfSome, length, map, reverse, slice_get, take};
ghost use Rattle.std.specs.List.{All};
ghost use Rattle.std.specs.Vec.{vec_capacity};
ghost use Rattle.es_base.specs.declared.place.Net.TheVariants.{A, B};
ghost use Rattle.es_base.specs.Frame.{IsFrame, link_number_of};
ghost use Rattle.es_base.specs.Past.{arrived};
ghost use Rattle.es_base.specs.Settings.{Settings};
ghost use Rattle.es_base.specs.Tally.{IsKind};
ghost use Rattle.es_base.specs.Verdict.{verdict_kinds};
ghost use Rattle.link_core.specs.Counted.{shown};
ghost use Rattle.receiver.specs.declared.ends.LinkEnds.{LinkEnds};
ghost use Rattle.receiver.specs.declared.partition.PartitionEnd.{PartitionEnd};
ghost use Rattle.receiver.specs.Meetings.{HasOutletAt};
ghost use Rattle.receiver.specs.Outlet.{reads_by};
ghost use Rattle.receiver.specs.Port.{IsPortOf, IsQueueOf, ReadsPort, ShowsPort};
ghost use Rattle.receiver.specs.Receiver.{AreNewLinks};
ghost use Rattle.network_calls.specs.declared.counts.LinkCounts.{LinkCounts};
ghost use Rattle.network_calls.specs.Calls.{call, user_of};
ghost use Rattle.network_calls.specs.Passes.{AreCounted, AreIdle, ArePasses, DoesAt, pass_with};
ghost use Rattle.link_rules.specs.Integrity.{passes};
ghost use Rattle.link_core.specs.declared.net_checks.NetChecks.{NetChecks as Checks};
ghost use Rattle.live_system.specs.Burst.{StandTogetherAt, most_in_row};
ghost use Rattle.live_system.specs.Checked.{AreChecked, AreStanding, TestsEach, latest_of};
ghost use Rattle.live_system.specs.Calls.{LiveLink, as_opened};
ghost use Rattle.live_system.specs.Fill.{TellsOfQueue};
ghost use Rattle.live_system.specs.Groups.{AreLetGo, AreNewCounts, HasLinkAt, IsGroup, KnowsAt, calls_shown, count_shown, ids_of, is_any, known_links, no_calls_on_any, under};
ghost use Rattle.live_system.specs.Health.{TellsOfLink, TellsOfPort};
ghost use Rattle.live_system.specs.Meetings.{MeetsReader, MeetsTaker, VisitsAt};
ghost use Rattle.live_system.specs.Pass.{Did, KnownLink};
ghost use Rattle.live_system.specs.Rows.{AreForLinks, CallsEach, IsApart, KnowsFor, TookEach, index_at};
ghost use Rattle.live_system.specs.System.{CallsAt, KnowLinks, keeping_no_frame};

use crate::cut::LinkPlace;
use crate::fill::fill_at;
use crate::group::Group;
use crate::health::{LinkHealth, health_at, port_counts_at};
use crate::meetings::{meet_reader, meet_taker};
use crate::row::{Answers, Entry, take_at, take_each, tell_each, test_each};
use es_base::{LinkNo, LinkSettings, Memory, Net, PortNo, Verdict};
use frame_reader::Frame;
use link_core::NetChecks;
use link_lock::{Lock, Opened, PassOf};
use network_calls::{LinkCounts, counts_on};
use receiver::{
    Fill, LinkEnds, MailboxReader, PartitionEnd, PortCounts, PortOutlet, PortedLink, Readers,
    Reply, RingTaker,
};
use std::alloc::Global;
use std::marker::Model;
use std::sync::Wait;

/// One network's pass on the links of a group, by which a thread gives them its frames. To a contract it is what it
/// knows of each link: the link's lock, the network, the link as it was opened, the calls made, and their counts. It has
/// integrity checking too, since that needs nothing of the other network: a frame is tested before its link is locked.
#[derive(Drop)]
pub struct GroupPass {
    net: Net,
    pass: PassOf<Group>,
    counts: Vec<LinkCounts>,
    /// What the network alone keeps of each link.
    checks: Vec<NetChecks>,
}

impl Model for GroupPass {
    ghost use Rattle.std.specs.Prelude.{List};
    ghost use Rattle.live_system.specs.Checked.{AreChecked};
    ghost use Rattle.live_system.specs.Groups.{IsOfGroup, known_links};
    ghost use Rattle.live_system.specs.Pass.{KnownLink};

    ghost Value = { List KnownLink };

    ghost view = { λ p. known_links p.net p.pass 0 p.counts.items };

    ghost invariant = { λ p. IsOfGroup p.net p.pass p.counts.items × AreChecked (known_links p.net p.pass 0 p.counts.items) p.checks.items };
}

impl GroupPass {
    /// A new pass on links with these counts and checks.
    pub(crate) fn new(
        net: Net,
        pass: PassOf<Group>,
        counts: Vec<LinkCounts>,
        checks: Vec<NetChecks>,
    ) -> GroupPass
        requires user { pass.user ≡ user_of net }
        requires list { pass.list ≡ no_calls_on_any }
        requires links { (settings : List Settings) × (links : List LiveLink) × (pass.fixed ≡ Some links) × (length settings ≡ length links) × AreNewCounts settings counts.items }
        requires some { 0 < length counts.items }
        requires checks { AreChecked (known_links net pass 0 counts.items) checks.items }
        ensures { result ≡ known_links net pass 0 counts.items }
    {
        GroupPass {
            net,
            pass,
            counts,
            checks,
        }
    }

    /// Number of calls on the link with this number, saturating at 2^64 - 1. None if no link of the group has it.
    pub(crate) fn calls(&self, vl: LinkNo) -> Option<u64>
        ensures { result ≡ calls_shown (pass_with keeping_no_frame vl self.now) }
    {
        match counts_on(&self.counts, vl) {
            Some(counts) => Some(counts.number),
            None => None,
        }
    }

    /// Number of calls on the link with this number whose verdict has this kind, 1 to 13, saturating at 2^64 - 1. None
    /// if no link of the group has it.
    pub(crate) fn count(&self, vl: LinkNo, kind: usize) -> Option<u64>
        requires { IsKind verdict_kinds kind }
        ensures { result ≡ count_shown kind (pass_with keeping_no_frame vl self.now) }
    {
        match counts_on(&self.counts, vl) {
            Some(counts) => Some(counts.tally.count(self.net, kind)),
            None => None,
        }
    }

    /// Arrival time of the latest frame given to the link at this index of the group, in microseconds as given. None if
    /// none was.
    pub(crate) fn latest(&self, index: usize) -> Option<u64>
        requires { index < length self.now }
        ensures { (pass : KnownLink) → slice_get self.now index ≡ Some pass → result ≡ latest_of pass.calls }
    {
        self.checks[index].latest()
    }

    /// Gives the link at this index of the group a frame that came on the pass's network at `now`, in microseconds:
    /// waits until the group is free, and lets the link take the frame. Returns its event's place, which saturates at
    /// 2^64 - 1, and its verdict. Takes no memory, and can't fail.
    pub(crate) fn receive<R: Wait>(
        &mut self,
        rt: &R,
        lock: &Lock<Group>,
        index: usize,
        now: u64,
        frame: &Frame<'_>,
    ) -> (u64, Verdict)
        requires { KnowsAt self.old lock.now index (λ link. link_number_of frame.now.whole.now ≡ link.core.settings.vl.0) }
        ensures { (place : ℕ) × (result.0 ≡ shown place) × CallsAt self.old index (call place now frame.now.whole.now result.1) self.new }
    {
        let net = self.net;
        let octets = frame.whole;
        let passed = self.checks[index].check(frame.sequence_number);
        let answer = lock.visit(
            rt,
            &mut self.pass,
            move |group: &mut Group| -> (u64, Verdict)
                requires frame { IsFrame octets.now }
                requires link { HasLinkAt group.old index (λ link. link_number_of octets.now ≡ link.core.settings.vl.0) }
                requires passed { (link : LiveLink) → slice_get group.old index ≡ Some link → passed ≡ passes link.core.settings link.core.past (arrived net now octets.now) }
                ensures { DoesAt (λ old new. Did (arrived net now octets.entry.now) old new result) group.old index group.new }
            { take_at(group, index, net, passed, now, octets) },
        );
        self.checks[index].note(frame.sequence_number, now);
        self.counts[index].add(net, answer.1);
        answer
    }

    /// As [`receive`](GroupPass::receive) if nobody has the group at this moment. `None` if the other network has a
    /// link of it: the link didn't take the frame, and the pass is as it was. Waits for nobody, takes no memory, and
    /// can't fail.
    pub(crate) fn try_receive(
        &mut self,
        lock: &Lock<Group>,
        index: usize,
        now: u64,
        frame: &Frame<'_>,
    ) -> Option<(u64, Verdict)>
        requires { KnowsAt self.old lock.now index (λ link. link_number_of frame.now.whole.now ≡ link.core.settings.vl.0) }
        ensures calls { IfSome result (λ answer. (place : ℕ) × (answer.0 ≡ shown place) × CallsAt self.old index (call place now frame.now.whole.now answer.1) self.new) }
        ensures away { IfNone result (self.new ≡ self.old) }
    {
        let net = self.net;
        let octets = frame.whole;
        let passed = self.checks[index].check(frame.sequence_number);
        let (place, verdict) = lock.try_visit(
            &mut self.pass,
            move |group: &mut Group| -> (u64, Verdict)
                requires frame { IsFrame octets.now }
                requires link { HasLinkAt group.old index (λ link. link_number_of octets.now ≡ link.core.settings.vl.0) }
                requires passed { (link : LiveLink) → slice_get group.old index ≡ Some link → passed ≡ passes link.core.settings link.core.past (arrived net now octets.now) }
                ensures { DoesAt (λ old new. Did (arrived net now octets.entry.now) old new result) group.old index group.new }
            { take_at(group, index, net, passed, now, octets) },
        )?;
        self.checks[index].note(frame.sequence_number, now);
        self.counts[index].add(net, verdict);
        Some((place, verdict))
    }

    /// Gives links of the group frames that came on the pass's network, each with the index of its link in the
    /// configuration and its time, in microseconds; `places` says where each link stands. Waits until the group is free,
    /// lets the links take the frames one after another, and then gives it back: one visit. Takes no memory, and can't
    /// fail.
    pub(crate) fn receive_each<R: Wait>(
        &mut self,
        rt: &R,
        lock: &Lock<Group>,
        places: &[LinkPlace],
        row: &[Entry<'_>],
        replies: &mut [Reply],
    )
        requires some { 0 < length row.now }
        requires few { length row.now ≤ most_in_row }
        requires room { length replies.old ≡ length row.now }
        requires frames { All (KnowsFor (index_at places.now) (length places.now) self.old lock.now) row.now }
        ensures calls { CallsEach (index_at places.now) self.old row.now replies.new self.new }
        ensures together { All (λ e. IsApart (index_at places.now) e.0 row.now → (place : ℕ) × StandTogetherAt e.0 place replies.new) row.now }
    {
        let net = self.net;
        let passed = test_each(&mut self.checks, places, row);
        let answers = lock.visit(
            rt,
            &mut self.pass,
            move |group: &mut Group| -> Answers
                requires few { length row.now ≤ most_in_row }
                requires passed { (checks : List Checks) × (news : List Checks) × AreStanding net group.old checks × TestsEach (index_at places.now) checks row.now (take (length row.now) passed) news }
                requires frames { AreForLinks (index_at places.now) (length places.now) group.old row.now }
                ensures { TookEach (index_at places.entry.now) net group.old row.entry.now (take (length row.entry.now) result) group.new }
            { take_each(group, places, net, &passed, row) },
        );
        tell_each(&mut self.counts, places, net, row, &answers, replies);
    }

    /// Synchronizes a sampling port of the link at this index of the group with a reader of it. Waits for the group's
    /// lock.
    pub(crate) fn meet_reader<R: Wait>(
        &mut self,
        rt: &R,
        lock: &Lock<Group>,
        index: usize,
        port: PortNo,
        reader: MailboxReader,
    ) -> MailboxReader
        requires { KnowsAt self.old lock.now index (λ link. HasOutletAt link port (λ outlet. IsPortOf outlet reader)) }
        ensures pass { self.new ≡ self.old }
        ensures meets { VisitsAt self.old index (λ found left. MeetsReader port reader result found left) }
    {
        lock.visit(
            rt,
            &mut self.pass,
            move |group: &mut Group| -> MailboxReader
                requires { HasLinkAt group.old index (λ link. HasOutletAt link port (λ outlet. IsPortOf outlet reader)) }
                ensures { DoesAt (λ found left. MeetsReader port reader result found left) group.old index group.new }
            { meet_reader(group, index, port, reader) },
        )
    }

    /// Synchronizes a queuing port of the link at this index of the group with its taker. Waits for the group's lock.
    pub(crate) fn meet_taker<R: Wait>(
        &mut self,
        rt: &R,
        lock: &Lock<Group>,
        index: usize,
        port: PortNo,
        taker: RingTaker,
    ) -> RingTaker
        requires { KnowsAt self.old lock.now index (λ link. HasOutletAt link port (λ outlet. IsQueueOf outlet taker)) }
        ensures pass { self.new ≡ self.old }
        ensures meets { VisitsAt self.old index (λ found left. MeetsTaker port taker result found left) }
    {
        lock.visit(
            rt,
            &mut self.pass,
            move |group: &mut Group| -> RingTaker
                requires { HasLinkAt group.old index (λ link. HasOutletAt link port (λ outlet. IsQueueOf outlet taker)) }
                ensures { DoesAt (λ found left. MeetsTaker port taker result found left) group.old index group.new }
            { meet_taker(group, index, port, taker) },
        )
    }

    /// What the link at this index of the group tells, if nobody has the group at this moment. `None` if the other network
    /// has a link of it. Waits for nobody.
    pub(crate) fn try_health(&mut self, lock: &Lock<Group>, index: usize) -> Option<LinkHealth>
        requires { KnowsAt self.old lock.now index is_any }
        ensures pass { self.new ≡ self.old }
        ensures health { IfSome result (λ health. VisitsAt self.old index (λ found left. TellsOfLink health found left)) }
    {
        let health = lock.try_visit(
            &mut self.pass,
            move |group: &mut Group| -> LinkHealth
                requires { HasLinkAt group.old index is_any }
                ensures { DoesAt (λ found left. TellsOfLink result found left) group.old index group.new }
            { health_at(group, index) },
        )?;
        Some(health)
    }

    /// What became of the messages for a port of the link at this index of the group, if nobody has the group at this
    /// moment. `None` if the other network has a link of it. Waits for nobody.
    pub(crate) fn try_port_counts(
        &mut self,
        lock: &Lock<Group>,
        index: usize,
        port: PortNo,
    ) -> Option<Option<PortCounts>>
        requires { KnowsAt self.old lock.now index is_any }
        ensures pass { self.new ≡ self.old }
        ensures counts { IfSome result (λ counts. VisitsAt self.old index (λ found left. TellsOfPort port counts found left)) }
    {
        let counts = lock.try_visit(
            &mut self.pass,
            move |group: &mut Group| -> Option<PortCounts>
                requires { HasLinkAt group.old index is_any }
                ensures { DoesAt (λ found left. TellsOfPort port result found left) group.old index group.new }
            { port_counts_at(group, index, port) },
        )?;
        Some(counts)
    }

    /// Fill level of the queue of a port of the link at this index of the group, by a look in this call, if nobody has
    /// the group at this moment. `None` if the other network has a link of it. Waits for nobody.
    pub(crate) fn try_fill(
        &mut self,
        lock: &Lock<Group>,
        index: usize,
        port: PortNo,
    ) -> Option<Option<Fill>>
        requires { KnowsAt self.old lock.now index is_any }
        ensures pass { self.new ≡ self.old }
        ensures fill { IfSome result (λ fill. VisitsAt self.old index (λ found left. TellsOfQueue port fill found left)) }
    {
        let fill = lock.try_visit(
            &mut self.pass,
            move |group: &mut Group| -> Option<Fill>
                requires { HasLinkAt group.old index is_any }
                ensures { DoesAt (λ found left. TellsOfQueue port result found left) group.old index group.new }
            { fill_at(group, index, port) },
        )?;
        Some(fill)
    }

    /// Ends the lock of a group, whose passes these are, and adds its links and what both passes counted on them, each
    /// in reverse order. Takes no memory, and waits for nobody.
    pub(crate) fn settle(
        lock: Lock<Group>,
        a: GroupPass,
        b: GroupPass,
        links: &mut Vec<PortedLink<PortOutlet>>,
        counts_a: &mut Vec<LinkCounts>,
        counts_b: &mut Vec<LinkCounts>,
    )
        requires own { (settings : List Settings) × ArePasses keeping_no_frame A (ids_of lock 0 (length settings)) settings a × ArePasses keeping_no_frame B (ids_of lock 0 (length settings)) settings b }
        requires room { length links.old.items + length a ≤ vec_capacity links.old }
        requires room_a { length counts_a.old.items + length a ≤ vec_capacity counts_a.old }
        requires room_b { length counts_b.old.items + length b ≤ vec_capacity counts_b.old }
        ensures links { (left : List LiveLink) × (links.new.items ≡ links.old.items ++ reverse left) × AreLetGo a b left }
        ensures a { (counted : List LinkCounts) × (counts_a.new.items ≡ counts_a.old.items ++ reverse counted) × AreCounted keeping_no_frame A a counted }
        ensures b { (counted : List LinkCounts) × (counts_b.new.items ≡ counts_b.old.items ++ reverse counted) × AreCounted keeping_no_frame B b counted }
        ensures room { (vec_capacity links.new ≡ vec_capacity links.old) × (vec_capacity counts_a.new ≡ vec_capacity counts_a.old) × (vec_capacity counts_b.new ≡ vec_capacity counts_b.old) }
    {
        let GroupPass {
            net: _,
            pass: first,
            counts: a,
            checks: _,
        } = a;
        let GroupPass {
            net: _,
            pass: second,
            counts: b,
            checks: _,
        } = b;
        let Group { links: left } = lock.settle(first, second);
        add_reversed(left, links);
        add_reversed(a, counts_a);
        add_reversed(b, counts_b);
    }
}

/// Adds all of these, the last first, where there is room.
fn add_reversed<T: Drop>(mut from: Vec<T>, to: &mut Vec<T>)
    requires { length to.old.items + length from.items ≤ vec_capacity to.old }
    ensures added { to.new.items ≡ to.old.items ++ reverse from.items }
    ensures room { vec_capacity to.new ≡ vec_capacity to.old }
{
    'items: while let Some(item) = from.pop() {
        to.push_reserved(item);
    }
}
