//! The configuration and the frames of the example, as octets.
use es_base::{Config, LinkNo, PortNo};
use hex_trace::decode_digits;
use std::alloc::Global;
use std::process::Abort;
use vl_config::read_config;

/// The link of the example, and its port.
pub(crate) const LINK_17: LinkNo = LinkNo(17);

pub(crate) const NAV: PortNo = PortNo(0);

const CONFIGURATION: &str = r#"
[[link]]
vl = 17
skew_max_us = 1000
reassembly_us = 50000

[[link.port]]
name = "nav"
kind = "queuing"
address = "224.224.0.17"
udp = 5002
depth = 4
max = 100
"#;

/// The frame with the first fragment, as A brings it and as B does, and that with the second, as B brings it.
const FIRST_ON_A: &str =
    "030000000011020000000120080045000024000120000111add50a010101e0e000111388138a001800000102030405060708000000000000000000fe";

const FIRST_ON_B: &str =
    "030000000011020000000140080045000024000120000111add50a010101e0e000111388138a001800000102030405060708000000000000000000fe";

const SECOND_ON_B: &str =
    "03000000001102000000014008004500001c000100020111cddb0a010101e0e00011090a0b0c0d0e0f100000000000000000000000000000000000ff";

/// The payload of both fragments.
pub(crate) const MESSAGE: [u8; 16] = [1, 2, 3, 4, 5, 6, 7, 8, 9, 10, 11, 12, 13, 14, 15, 16];

/// What a program of the example is given.
#[derive(Drop)]
pub(crate) struct Example {
    pub config: Config,
    pub on_a: Vec<u8>,
    pub first_on_b: Vec<u8>,
    pub second_on_b: Vec<u8>,
}

fn octets(rt: &impl Abort, alloc: Global, digits: &str) -> Vec<u8> {
    decode_digits(alloc, digits.as_bytes())
        .ok()
        .expect(rt, "octets")
}

pub(crate) fn given(rt: &impl Abort, alloc: Global) -> Example {
    Example {
        config: read_config(alloc, CONFIGURATION)
            .ok()
            .expect(rt, "a configuration"),
        on_a: octets(rt, alloc, FIRST_ON_A),
        first_on_b: octets(rt, alloc, FIRST_ON_B),
        second_on_b: octets(rt, alloc, SECOND_ON_B),
    }
}
