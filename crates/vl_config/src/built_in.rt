//! The configuration that the program uses when it is called with no words. Examples that read as a whole have its text
//! once more.

/// Link 17 with the sampling port `pos`, fresh for 20 milliseconds, and the queuing port `nav`.
pub const BUILT_IN: &str = r#"[[link]]
vl = 17
skew_max_us = 1000
reassembly_us = 50000

[[link.port]]
name = "pos"
kind = "sampling"
address = "224.224.0.17"
udp = 5000
refresh_us = 20000

[[link.port]]
name = "nav"
kind = "queuing"
address = "224.224.0.17"
udp = 5002
depth = 4
"#;
