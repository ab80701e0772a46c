//! Links under one lock, and the calls of both networks in their pasts.
use link_lock::Recorded;
use network_calls::Call;
use receiver::{PortOutlet, PortedLink};
use std::collections::LinkedList;
use std::marker::Model;

/// Neighbouring links under one lock, in the order of the configuration. To a contract it is the links.
#[derive(Drop)]
pub struct Group {
    pub(crate) links: Vec<PortedLink<PortOutlet>>,
}

impl Model for Group {
    ghost use Rattle.std.specs.Prelude.{List};
    ghost use Rattle.live_system.specs.Calls.{LiveLink};

    ghost Value = { List LiveLink };

    ghost view = { λ g. g.links.items };
}

impl Recorded for Group {
    type List = LinkedList<LinkedList<Call>>;

    ghost use Rattle.std.specs.Prelude.{map};
    ghost use Rattle.live_system.specs.Calls.{as_opened};
    ghost use Rattle.live_system.specs.Groups.{AgreeEach, go_on, no_calls_on_any};

    ghost fixed = { map as_opened };

    ghost agree = { AgreeEach };

    ghost goes_on = { go_on };

    ghost nothing = { no_calls_on_any };
}
