//! Frames that an expression chooses, by `packet_filter`.

use crate::case::{Case, write_shown, write_text};
use crate::shown::{Answer, Shown};
use packet::lax_sliced_packet::LaxSlicedPacket;
use packet::link::{LinkError, LinkType};
use packet_filter::{Filter, FilterError};

/// `filter LINK_TYPE FRAME LENGTH TEXT`: whether the expression is true of a frame, which had that
/// length on the wire. The link type has its number in captures.
pub fn answer(case: &mut Case) {
    let link_type = LinkType::from_number(case.number());
    let frame = case.bytes();
    let len = case.number();
    let text = case.bytes();
    match (link_type, Filter::from_text(&text)) {
        (None, _) => case.refuse(),
        (Some(_), Err(e)) => write_shown(e, case),
        (Some(link_type), Ok(filter)) => match LaxSlicedPacket::from_link_type(link_type, &frame) {
            Ok(lax) => write_text(filter.matches(&lax, len), case),
            Err(e) => write_shown(e, case),
        },
    }
}

impl Shown for FilterError {
    fn show(&self, answer: &mut Answer) {
        match self {
            FilterError::Unexpected { place, .. } => answer.put("err unexpected place=", *place),
            FilterError::Mixed { place, .. } => answer.put("err mixed place=", *place),
            FilterError::Unsupported { place } => answer.put("err unsupported place=", *place),
            FilterError::Incomplete { .. } => answer.words("err incomplete"),
            FilterError::TooLong { .. } => answer.words("err too_long"),
        }
    }
}

impl Shown for LinkError {
    fn show(&self, answer: &mut Answer) {
        answer.put("err link required=", self.required_len);
        answer.put(" len=", self.len);
    }
}
