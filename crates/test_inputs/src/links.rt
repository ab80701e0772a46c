//! Link 17 of the built-in configuration, and others that differ from it in little.
use es_base::{
    LONGEST_QUEUED, LONGEST_SAMPLE, LinkNo, LinkSettings, PortKind, PortName, PortSettings,
};
use std::alloc::Global;

/// The text of a second link, 18, with the sampling port `alt`, to follow the built-in configuration.
pub const SECOND_LINK: &str = r#"
[[link]]
vl = 18
skew_max_us = 1000
reassembly_us = 50000

[[link.port]]
name = "alt"
kind = "sampling"
address = "224.224.0.18"
udp = 5000
refresh_us = 20000
"#;

/// A link with the number 17, the sampling port `pos` and the queuing port `nav`.
#[derive(Clone, Copy, Drop)]
pub struct Link {
    /// Whether redundancy management is on.
    pub redundancy: bool,
    /// How many sequence numbers after another pass.
    pub window: u8,
    /// The largest payload of `pos`, in octets.
    pub pos_max: u16,
    /// How many messages the queue of `nav` holds.
    pub nav_depth: u8,
    /// The largest payload of `nav`, in octets.
    pub nav_max: u16,
}

/// The link of the built-in configuration.
pub const LINK: Link = Link {
    redundancy: true,
    window: 2,
    pos_max: LONGEST_SAMPLE,
    nav_depth: 4,
    nav_max: LONGEST_QUEUED,
};

/// A port that takes UDP datagrams to 224.224.0.17.
pub fn port_of(name: &str, udp: u16, max: u16, kind: PortKind) -> Option<PortSettings> {
    PortSettings::new(PortName::new(name)?, 0xe0e0_0011, udp, max, kind)
}

/// A sampling port whose messages are fresh for 20 milliseconds.
pub fn sampling_port(name: &str, udp: u16, max: u16) -> Option<PortSettings> {
    port_of(name, udp, max, PortKind::Sampling { refresh: 20_000 })
}

impl Link {
    /// The ports `pos` and `nav`. None if memory runs out or a limit is broken.
    pub fn ports(&self, alloc: Global) -> Option<Vec<PortSettings>> {
        let depth = self.nav_depth;
        let pos = sampling_port("pos", 5000, self.pos_max)?;
        let nav = port_of("nav", 5002, self.nav_max, PortKind::Queuing { depth })?;
        let mut ports = Vec::new(alloc);
        ports.push(pos).ok()?;
        ports.push(nav).ok()?;
        Some(ports)
    }

    /// This link with these ports. None if a limit is broken.
    pub fn with_ports(&self, ports: Vec<PortSettings>) -> Option<LinkSettings> {
        LinkSettings::new(
            LinkNo(17),
            1000,
            self.redundancy,
            50_000,
            self.window,
            ports,
        )
    }

    /// The settings of this link. None if memory runs out or a limit is broken.
    pub fn settings(&self, alloc: Global) -> Option<LinkSettings> {
        self.with_ports(self.ports(alloc)?)
    }
}
