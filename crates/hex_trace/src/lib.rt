//! Hex traces: where they come from, how one is read whole, and the frames that it says. A trace is text: a line for
//! each frame, with the frame's time in microseconds, a space, and its octets in hexadecimal digits. `read_trace`
//! returns the text's frames, or its first faulty line with its cause; and a failed read exactly if one failed.
#![tactic(auto)]

mod decode;
mod device;
mod fault;
mod frames;
mod line;
mod lines;
mod piece;
mod reading;
mod source;
mod trace;

pub use decode::decode_digits;
pub use device::{Device, Failed, told};
pub use fault::{TraceCause, TraceFault};
pub use frames::{Frames, LentFrame};
pub use line::LONGEST_LINE;
pub use reading::Reading;
pub use source::Source;
pub use trace::{Progress, read_trace};
