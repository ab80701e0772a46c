//! The link of a frame.
ghost use Rattle.std.specs.Prelude.{◌≡◌, Err, IfErr, IfOk, OnOk};
ghost use Rattle.es_base.specs.Config.{AreLinks};
ghost use Rattle.es_base.specs.Addressing.{ComesToPlace, addressed_link};

use crate::frame::{Frame, read_frame};
use es_base::{Config, FilterCause};

/// Reads a frame and finds its link's place in the configuration. The error is the cause for which the
/// frame is filtered: its first fault, or that no link has its link number (own).
#[tactic(auto, unfolding(es_base::specs::Addressing::addressed_link))]
pub fn read_addressed<'a>(
    config: &Config,
    bytes: &'a [u8],
) -> Result<(usize, Frame<'a>), FilterCause>
    ensures filtered { IfErr result (λ cause. addressed_link config.now bytes.now ≡ Err cause) }
    ensures place { IfOk result (λ found. ComesToPlace config.now bytes.now found.0) }
    ensures whole { IfOk result (λ found. found.1.whole.now ≡ bytes.now) }
    ensures limits { OnOk result (AreLinks config.now.links) }
{
    let frame = match read_frame(config.constant(), bytes) {
        Ok(frame) => frame,
        Err(fault) => return Err(FilterCause::from(fault)),
    };
    match config.link_of(frame.vl) {
        Some(place) => Ok((place, frame)),
        None => Err(FilterCause::UnknownLink),
    }
}
