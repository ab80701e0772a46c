//! One task gives the frames to its receiver.
ghost use Rattle.std.specs.Prelude.{◌≡◌, IfOk, slice_get};
ghost use Rattle.receiver.specs.Port.{AnswersPort, ShowsPort};
ghost use Rattle.receiver.specs.Run.{HasRun};
ghost use Rattle.delivery_example.specs.Example.{AreOfTheExample};
ghost use Rattle.delivery_example.specs.Given.{WasGivenOnce};
ghost use Rattle.delivery_example.specs.Task.{calls_of_task};

use delivery_laws::task::each_datagram_is_given_once;
use es_base::{Config, Memory, Net};
use receiver::laws::the_calls_on_each_link_are_its_past;
use receiver::{Opened, PortOutlet, ReaderCount, Receiver, Reply};
use std::alloc::Global;

/// A receiver after its frames, the ends of its ports, and the replies.
#[derive(Drop)]
pub struct Received {
    pub opened: Opened<PortOutlet>,
    pub on_a: Reply,
    pub first_on_b: Reply,
    pub second_on_b: Reply,
}

/// Opens a receiver, and gives it a frame that network A brings and two that network B brings. Whatever they are, the
/// calls on each link are its past; and if they are those of the example, the port was given the message once.
pub fn run(
    alloc: Global,
    config: &Config,
    on_a: &[u8],
    first_on_b: &[u8],
    second_on_b: &[u8],
) -> Result<Received, Memory>
    ensures calls { IfOk result (λ r. HasRun ShowsPort AnswersPort config.now (calls_of_task on_a.now first_on_b.now second_on_b.now r.on_a r.first_on_b r.second_on_b) r.opened.receiver) }
    ensures given { IfOk result (λ r. AreOfTheExample config.now on_a.now first_on_b.now second_on_b.now → WasGivenOnce (slice_get r.opened.receiver.links 0)) }
{
    the_calls_on_each_link_are_its_past::<PortOutlet>();
    each_datagram_is_given_once::<PortOutlet>();
    let mut opened = Receiver::<PortOutlet>::open(alloc, config, ReaderCount::most())?;
    let to_a = opened.receiver.receive(Net::A, 100, on_a);
    let to_b = opened.receiver.receive(Net::B, 900, first_on_b);
    let to_b_again = opened.receiver.receive(Net::B, 10_500, second_on_b);
    Ok(Received {
        opened,
        on_a: to_a,
        first_on_b: to_b,
        second_on_b: to_b_again,
    })
}
