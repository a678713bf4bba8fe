//! Fragments that are put together, by `packet_reassembly`.

ghost use Rattle.std.specs.Prelude.{◌≡◌, IfOk, length};

use crate::case::{Case, write_shown};
use crate::shown::{Answer, Shown};
use etherparse::IpFragOffset;
use packet_reassembly::ip_defrag_buf::IpDefragBuf;
use packet_reassembly::ip_defrag_error::IpDefragError;
use std::alloc::{AllocError, Global};

/// `fragments COUNT [OFFSET MORE PAYLOAD]..`: what is known of a datagram after each of its
/// fragments, and its bytes.
pub fn answer(case: &mut Case) {
    let done = write_fragments(case);
    case.answer.note(&done);
}

// The answer, if there is memory for the datagram.
fn write_fragments(case: &mut Case) -> Result<(), AllocError> {
    let mut bytes = zeros(case.alloc, IpDefragBuf::MAX_LEN)?;
    let mut units = zeros(case.alloc, IpDefragBuf::UNITS)?;
    let mut buf = IpDefragBuf::new(bytes.as_mut_slice(), units.as_mut_slice());
    add_all(&mut buf, case);
    write_datagram(&buf, &mut case.answer);
    Ok(())
}

// Adds the fragments, and writes what is known after each.
fn add_all(buf: &mut IpDefragBuf, case: &mut Case) {
    for _ in 0..case.number::<u16>() {
        add_next(buf, case);
        case.answer.words(" ; ");
    }
}

// Adds the next fragment, and writes what is known then.
fn add_next(buf: &mut IpDefragBuf, case: &mut Case) {
    let offset = case.field::<u16, IpFragOffset>();
    let more_fragments = case.flag();
    let payload = case.bytes();
    match buf.add(offset, more_fragments, &payload) {
        Ok(()) => case.answer.words(state_of(buf)),
        Err(e) => write_shown(e, case),
    }
}

// Writes the bytes of the datagram, if it is whole.
fn write_datagram(buf: &IpDefragBuf, answer: &mut Answer) {
    answer.bytes("", buf.datagram().unwrap_or(&[]));
}

// What is known of a datagram.
fn state_of(buf: &IpDefragBuf) -> &'static str {
    if buf.is_discarded() {
        "discarded"
    } else if buf.datagram().is_some() {
        "complete"
    } else {
        "incomplete"
    }
}

// So many bytes.
fn zeros(alloc: Global, len: usize) -> Result<Vec<u8>, AllocError>
    ensures len { IfOk result (λ v. length v.items ≡ len) }
{
    vec![in alloc; 0; len]
}

impl Shown for IpDefragError {
    fn show(&self, answer: &mut Answer) {
        match self {
            IpDefragError::Empty { .. } => answer.words("err empty"),
            IpDefragError::UnalignedFragmentPayloadLen { payload_len, .. } => {
                answer.put("err unaligned len=", *payload_len)
            }
            IpDefragError::SegmentTooBig {
                payload_len,
                max,
                ..
            } => {
                answer.put("err too_big len=", *payload_len);
                answer.put(" max=", *max);
            }
        }
    }
}
