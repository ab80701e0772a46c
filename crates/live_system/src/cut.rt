//! How links are cut into groups of neighbours.
ghost use Rattle.std.specs.Prelude.{◌≡◌, ◌<◌, ◌++◌, ℕ, IfOk};
ghost use Rattle.std.specs.List.{All};
ghost use Rattle.live_system.specs.Groups.{IsCut, places_in, places_of};

use es_base::Memory;
use std::alloc::Global;

/// Where a link stands: the number of its group, from 0, and its place in it.
#[derive(Clone, Copy)]
pub(crate) struct LinkPlace {
    pub group: usize,
    pub index: usize,
}

/// Sizes of the groups of so many links, where so many groups were asked for.
pub(crate) fn sizes_of(alloc: Global, links: usize, groups: usize) -> Result<Vec<usize>, Memory>
    ensures { IfOk result (λ sizes. IsCut links groups sizes.items) }
{
    let many = links.min(groups.max(1));
    let mut sizes = Vec::new(alloc);
    if many == 0 {
        return Ok(sizes);
    }
    let each = links / many;
    let greater = links % many;
    'groups: for group in 0..many {
        let size = if group < greater { each + 1 } else { each };
        sizes.push(size)?;
    }
    Ok(sizes)
}

/// The place of each link, where groups have these sizes.
pub(crate) fn places_in(alloc: Global, sizes: &[usize]) -> Result<Vec<LinkPlace>, Memory>
    ensures { IfOk result (λ places. places.items ≡ places_in 0 sizes.now) }
{
    let mut places = Vec::new(alloc);
    'groups: for group in 0..sizes.len() {
        push_places(&mut places, group, sizes[group])?;
    }
    Ok(places)
}

/// Adds the places of the links of a group of this size.
fn push_places(places: &mut Vec<LinkPlace>, group: usize, size: usize) -> Result<(), Memory>
    ensures { IfOk result (λ _. places.new.items ≡ places.old.items ++ places_of group 0 size) }
{
    'links: for index in 0..size {
        places.push(LinkPlace { group, index })?;
    }
    Ok(())
}
