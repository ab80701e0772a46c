//! A system with the passes that are left to hand out.
ghost use Rattle.std.specs.Prelude.{◌≡◌};
ghost use Rattle.system_slots.specs.Running.{IsNewSystem, config_of_system, pass_left, without_pass};

use crate::passing::Passing;
use es_base::{Config, Memory, Net};
use live_system::{LinkEnds, LiveSystem, Opened, PartitionEnd};
use receiver_slots::{Configured, Wanted};
use std::alloc::Global;
use std::marker::Model;
use std::sync::Arc;

/// A system, with the pass of each network until it is handed out.
#[derive(Drop)]
pub struct Running {
    pub(crate) system: Arc<LiveSystem, Global>,
    pub(crate) a: Option<Passing>,
    pub(crate) b: Option<Passing>,
}

impl Model for Running {
    ghost use Rattle.std.specs.Arc.{arc_value};
    ghost use Rattle.system_slots.specs.Running.{Running as Seen};

    ghost Value = { Seen };

    ghost view = { λ r. record { system = arc_value r.system; a = r.a; b = r.b } };
}

impl Configured for Running {
    ghost config_in = { config_of_system };

    ghost is_new = { IsNewSystem };

    fn open(
        alloc: Global,
        wanted: &Wanted<'_>,
    ) -> Result<(Running, Vec<LinkEnds<PartitionEnd>>), Memory> {
        let Opened { system, a, b, ends } = LiveSystem::open_with(
            alloc,
            &wanted.config,
            &wanted.readers,
        )?;
        let system = Arc::new(alloc, system)?;
        let of_a = Arc::try_clone(&system)?;
        let of_b = Arc::try_clone(&system)?;
        let running = Running {
            system,
            a: Some(Passing {
                system: of_a,
                pass: a,
            }),
            b: Some(Passing {
                system: of_b,
                pass: b,
            }),
        };
        Ok((running, ends))
    }

    fn config(&self) -> &Config {
        self.system.config()
    }
}

impl Running {
    /// Moves out the pass of this network, once.
    pub(crate) fn take_pass(&mut self, net: Net) -> Option<Passing>
        ensures pass { result ≡ pass_left net self.old }
        ensures left { self.new ≡ without_pass net self.old }
    {
        match net {
            Net::A => self.a.take(),
            Net::B => self.b.take(),
        }
    }
}
