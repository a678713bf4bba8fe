//! Frames chosen by an expression.

ghost use Rattle.std.specs.Prelude.{length};
ghost use Rattle.packet.specs.declared.link.LinkType.{LinkType};
ghost use Rattle.packet_filter.specs.Frame.{Answers};
ghost use Rattle.packet_filter.specs.Program.{expression_of};

use packet::link::LinkType;
use packet_filter::Filter;

/// Whether an Ethernet frame, all of which was captured, is one that a filter chooses.
pub fn is_chosen(filter: &Filter, frame: &[u8]) -> bool
    ensures chosen { Answers (expression_of filter.now) LinkType.Ethernet2 frame.now
        (length frame.now) result }
{
    filter.matches_frame(LinkType::Ethernet2, frame, frame.len())
}
