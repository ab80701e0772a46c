//! A link's history, compared with what the link was given, and the list that it is.
use block_list::BlockList;
use es_base::Event;
use std::process::Abort;
use std::test::Fail;
use test_inputs_end_system::Given;

/// The events, of which the first has the place `first`, are those of these frames, each at its place.
pub(crate) fn check_events(
    rt: &impl Abort,
    first: u64,
    events: &BlockList<Event>,
    given: &[Given],
) {
    assert!(rt; events.len() == given.len(), "{}", events.len());
    for one in given {
        assert!(rt; one.stands_in(first, events), "{}", one.place);
    }
}

#[test]
fn an_entry_stands_in_its_place(rt: HostRuntime) -> Result<(), Fail> {
    let mut list = BlockList::new(rt.alloc());
    list.reserve_one(rt.alloc())?;
    list.push_reserved('a');
    assert_eq!(rt; list.get(0), Some(&'a'));
    Ok(())
}
