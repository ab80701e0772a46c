//! The lines of a port, in the report of either player.
ghost use Rattle.std.specs.Prelude.{◌≡◌, ◌++◌, OnOk};
ghost use Rattle.std.specs.Option.{option_map};
ghost use Rattle.link_rules.specs.Deliveries.{read_as};
ghost use Rattle.output_lines.specs.Line.{message_text, queue_text};
ghost use Rattle.output_lines.specs.Report.{line, newest_lines};

use crate::text::Text;
use es_base::{Memory, Sample, freshness};
use output_lines::{EmptyLine, MessageHead, QueueLine, SampleHead};

/// Adds the line of a sampling port, with its newest message as it was read. Times are in microseconds.
pub fn write_newest<'a>(
    text: &mut Text<'a>,
    at: u64,
    name: &str,
    refresh: u64,
    newest: Option<Sample<'a>>,
) -> Result<(), Memory>
    ensures { OnOk result (text.new ≡ text.old ++ newest_lines at name.now refresh (option_map read_as newest.entry)) }
{
    let Some(newest) = newest else {
        return text.add_line(EmptyLine { name });
    };
    let head = SampleHead {
        name,
        message_number: newest.number,
        time: newest.time,
        len: newest.octets.len(),
        state: freshness(at, newest.time, refresh),
    };
    text.add_octets_line(head, newest.octets)
}

/// Adds the line of a queuing port, with the number of its messages.
pub fn write_queue(text: &mut Text<'_>, name: &str, count: usize) -> Result<(), Memory>
    ensures { OnOk result (text.new ≡ text.old ++ line (queue_text name.now count)) }
{
    text.add_line(QueueLine { name, count })
}

/// Adds the line of a message of a queuing port, which came at `time` microseconds.
pub fn write_message<'a>(
    text: &mut Text<'a>,
    name: &str,
    time: u64,
    octets: &'a [u8],
) -> Result<(), Memory>
    ensures { OnOk result (text.new ≡ text.old ++ line (message_text name.now time octets.now)) }
{
    let len = octets.len();
    text.add_octets_line(MessageHead { name, time, len }, octets)
}
