//! A newly opened group of links, and its passes.
ghost use Rattle.std.specs.Prelude.{◌≡◌, ◌<◌, ◌++◌, List, IfOk, length};
ghost use Rattle.es_base.specs.declared.place.Net.TheVariants.{A, B};
ghost use Rattle.receiver.specs.declared.ends.LinkEnds.{LinkEnds};
ghost use Rattle.receiver.specs.declared.partition.PartitionEnd.{PartitionEnd};
ghost use Rattle.receiver.specs.Outlet.{reads_by};
ghost use Rattle.receiver.specs.Port.{ReadsPort, ShowsPort};
ghost use Rattle.receiver.specs.Receiver.{AreNewLinks};
ghost use Rattle.network_calls.specs.Passes.{AreIdle, ArePasses};
ghost use Rattle.live_system.specs.Calls.{LiveLink};
ghost use Rattle.live_system.specs.Checked.{AreNewChecks};
ghost use Rattle.live_system.specs.Groups.{AreNewCounts, IsGroup, ids_of};
ghost use Rattle.live_system.specs.System.{KnowLinks, keeping_no_frame};

use crate::group::Group;
use crate::link_pass::GroupPass;
use es_base::{LinkSettings, Memory, Net};
use link_core::NetChecks;
use link_lock::{Lock, Opened};
use network_calls::LinkCounts;
use receiver::{LinkEnds, PartitionEnd, PortOutlet, PortedLink, Readers};
use std::alloc::Global;

/// A group of links under its lock, and the passes of both networks on it.
#[derive(Drop)]
pub(crate) struct OpenedGroup {
    pub lock: Lock<Group>,
    pub a: GroupPass,
    pub b: GroupPass,
}

/// Opens links with these settings under one lock, and adds the ends of their ports. Each sampling port has as many
/// readers as `readers` says.
pub(crate) fn open_group<R: Readers>(
    alloc: Global,
    links: &[LinkSettings],
    readers: &R,
    ends: &mut Vec<LinkEnds<PartitionEnd>>,
) -> Result<OpenedGroup, Memory>
    requires { 0 < length links.now }
    ensures a { IfOk result (λ o. ArePasses keeping_no_frame A (ids_of o.lock 0 (length links.now)) links.now o.a × AreIdle keeping_no_frame o.a × IsGroup o.a) }
    ensures b { IfOk result (λ o. ArePasses keeping_no_frame B (ids_of o.lock 0 (length links.now)) links.now o.b × AreIdle keeping_no_frame o.b × IsGroup o.b) }
    ensures links { IfOk result (λ o. (opened : List LiveLink) × (more : List (LinkEnds PartitionEnd)) × (ends.new.items ≡ ends.old.items ++ more)
        × AreNewLinks ShowsPort (reads_by ReadsPort (R.count readers.now)) links.now opened more × KnowLinks o.a opened × KnowLinks o.b opened) }
{
    let counts_a = new_counts(alloc, links)?;
    let counts_b = new_counts(alloc, links)?;
    let checks_a = new_checks(alloc, links)?;
    let checks_b = new_checks(alloc, links)?;
    let links = open_links(alloc, links, readers, ends)?;
    let Opened {
        lock,
        first,
        second,
    } = Lock::open(alloc, Group { links })?;
    Ok(OpenedGroup {
        lock,
        a: GroupPass::new(Net::A, first, counts_a, checks_a),
        b: GroupPass::new(Net::B, second, counts_b, checks_b),
    })
}

/// Opens links with these settings, and adds the ends of their ports.
fn open_links<R: Readers>(
    alloc: Global,
    links: &[LinkSettings],
    readers: &R,
    ends: &mut Vec<LinkEnds<PartitionEnd>>,
) -> Result<Vec<PortedLink<PortOutlet>>, Memory>
    ensures { IfOk result (λ opened. (more : List (LinkEnds PartitionEnd)) × (ends.new.items ≡ ends.old.items ++ more)
        × AreNewLinks ShowsPort (reads_by ReadsPort (R.count readers.now)) links.now opened.items more) }
{
    let mut opened = Vec::with_capacity(alloc, links.len())?;
    'links: for settings in links {
        let (link, ports) = PortedLink::<PortOutlet>::open(alloc, settings, readers)?;
        opened.push(link)?;
        let vl = settings.vl();
        ends.push(LinkEnds { vl, ports })?;
    }
    Ok(opened)
}

/// The counts before the first call, on links with these settings.
fn new_counts(alloc: Global, links: &[LinkSettings]) -> Result<Vec<LinkCounts>, Memory>
    ensures { IfOk result (λ counts. AreNewCounts links.now counts.items) }
{
    let mut counts = Vec::with_capacity(alloc, links.len())?;
    'links: for settings in links {
        counts.push(LinkCounts::new(settings.vl()))?;
    }
    Ok(counts)
}

/// What a network alone keeps of links with these settings, before the first frame.
fn new_checks(alloc: Global, links: &[LinkSettings]) -> Result<Vec<NetChecks>, Memory>
    ensures { IfOk result (λ checks. AreNewChecks links.now checks.items) }
{
    let mut checks = Vec::with_capacity(alloc, links.len())?;
    'links: for settings in links {
        checks.push(NetChecks::new(settings.window()))?;
    }
    Ok(checks)
}
