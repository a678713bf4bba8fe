//! What is written of the blocks, in their order.

ghost use Rattle.std.specs.Prelude.{◌≡◌, ◌≢◌, ◌≤◌, ◌<◌, ◌-◌, [], IfErr, IfOk};
ghost use Rattle.std.specs.Prelude.{◌++◌, Bool, OnErr, OnOk, Some, drop, false, length, take, true};
ghost use Rattle.std.specs.Io.KnownBytes.{IsAtEnd};
ghost use Rattle.packet_capture.specs.Any.{RefusesBlock, said};
ghost use Rattle.packet_capture.specs.Any as said;
ghost use Rattle.packet_capture.specs.Skip.{CanBeSkipped, front_len};
ghost use Rattle.ipcap.specs.Listing.{IsChosen, if_too_long};
ghost use Rattle.ipcap.specs.Private.Progress.{Because, Breaks, Ends, Lacks, Skips, Stops};
ghost use Rattle.ipcap.specs.Private.Progress.{Tells, TellsBlock, TellsFrame, TellsFront};
ghost use Rattle.ipcap.specs.Private.Progress.{IsShort, TellsFrontOf, TellsSaid, Turns, keeps};
ghost use Rattle.ipcap.specs.Reading.{max_len};
ghost use Rattle.ipcap.specs.Request.{has_enough};
ghost use Rattle.ipcap.specs.Streams.{CannotRead, NoReadFails, NoWriteFails, Prints, unread};
ghost use Rattle.ipcap.specs.Totals.{HasRoom, no_packet, packet};

use crate::completing::{completed, head_of_whole};
use crate::failure::Failure;
use crate::input::{Input, ROOM};
use crate::lines::RecordLine;
use crate::memory::Reassembly;
use crate::output::Output;
use crate::place::{End, Place};
use crate::reading::{Reading, left_out, max_len, read_numbered};
use crate::request::{Mode, Request};
use crate::streams::{Sink, Source};
use crate::totals::Totals;
use packet::link::LinkType;
use packet_capture::any::{Block, PacketHead, next_block};
use packet_capture::capture::CutOff;
use packet_capture::pcapng::blocks::BlockError;
use packet_capture::skip::{BlockFront, Content};

/// Why no whole block is read at the front of the bytes that have been read.
#[derive(Clone, Copy)]
pub enum Stop {
    /// As many are listed as were asked for.
    Enough,
    /// There are no bytes.
    Empty,
    /// The block there is incomplete.
    CutOff(CutOff),
    /// The block there is refused for another reason.
    Refused(BlockError),
}

/// Whether there is more to list.
#[derive(Clone, Copy)]
pub enum Turn {
    /// There may be more.
    GoesOn,
    /// There is no more: the last block is whole, or this is how the listing ends.
    Ends(Option<End>),
}

// Takes `len` bytes, or all that the input has if these are fewer, and prints them if they are
// kept; returns how many, and the last four of them.
fn skip<R: Source, W: Sink>(
    input: &mut Input<R>,
    len: usize,
    keeps: bool,
    output: &mut Output<W>,
) -> Result<(usize, [u8; 4]), Failure>
    requires reads_on { R.goes_on input.old.source }
    ensures skips { IfOk result (λ x. Skips R.remaining W.contents keeps len input.old input.new
        output.old output.new x.0 x.1) }
    ensures end { IfOk result (λ x. x.0 < len → IsAtEnd (R.remaining input.new.source)) }
    ensures lacks { IfErr result (λ e. Lacks R.remaining W.contents
        (CannotRead R.has_failed input.new) (W.has_failed output.new.sink) keeps len e
        input.old input.new output.old output.new) }
    ensures unfailed { OnOk result (NoReadFails R.has_failed input.old input.new) }
    ensures unfailed_else { IfErr result (λ e. e ≢ Failure.Read →
        NoReadFails R.has_failed input.old input.new) }
    ensures unfailed_writes { OnOk result (NoWriteFails W.has_failed output.old output.new) }
    ensures goes_on { IfOk result (λ x. x.0 ≡ len → R.goes_on input.new.source) }
{
    let mut left = len;
    let mut last = [0; 4];
    'turns: loop {
        let bytes = input.unread();
        let passed = bytes.len().min(left);
        output.copy_if(keeps, &bytes[..passed])?;
        last = last_four(last, &bytes[..passed]);
        input.pass(passed);
        left -= passed;
        if left == 0 {
            return Ok((len, last));
        }
        output.hand_over()?;
        if !input.fill(output)? {
            return Ok((len - left, last));
        }
    }
}

// The last four of four bytes and those that follow them.
fn last_four(four: [u8; 4], bytes: &[u8]) -> [u8; 4]
    ensures value { result ≡ drop (length bytes.now) (four ++ bytes.now) }
{
    let mut last = four;
    'bytes: for byte in bytes {
        last = [last[1], last[2], last[3], *byte];
    }
    last
}

impl Request {
    // Counts a packet that is listed, and writes its line or the bytes of its block.
    #[inline(always)] // The caller makes the reading in place.
    fn list_packet<W: Sink>(
        &self,
        totals: &mut Totals,
        is_reassembled: bool,
        head: &PacketHead,
        bytes: &[u8],
        reading: Reading,
        output: &mut Output<W>,
    ) -> Result<(), Failure>
        requires fits { length bytes.now ≤ ROOM }
        ensures told { OnOk result ((is_long : Bool) → TellsBlock W.contents self.now
            (length bytes.now) is_long (packet is_reassembled head.now (Some reading.entry))
            totals.old totals.new bytes.now output.old output.new) }
        ensures kept { OnErr result (Prints W.contents output.old output.new []) }
        ensures failed { IfErr result (λ e. Because ⊥ (W.has_failed output.new.sink)
            (¬ HasRoom totals.old) e ⊥ [] []) }
        ensures unfailed_writes { OnOk result (NoWriteFails W.has_failed output.old output.new) }
    {
        if !totals.count(bytes.len(), head, &reading) {
            return Err(Failure::Count);
        }
        match self.mode {
            Mode::Lines => output.print(RecordLine {
                is_utc: self.is_utc,
                number: totals.records,
                head: *head,
                reading,
                is_reassembled,
            }),
            Mode::Packets => output.copy(bytes),
            Mode::Quiet | Mode::Count => Ok(()),
        }
    }

    // Whether a packet is listed.
    fn is_chosen(&self, head: &PacketHead, frame: &[u8]) -> bool
        ensures value { IsChosen self.now head.now frame.now result }
    {
        match &self.filter {
            None => true,
            Some(filter) => match LinkType::from_number(u32::from(head.link_type)) {
                Some(link_type) => {
                    filter.matches_frame(link_type, frame, head.original_len as usize)
                }
                None => false,
            },
        }
    }

    // Counts a packet that is listed, and writes its line.
    #[inline(never)] // Packets without a line then do not pay for what one needs.
    fn list_line<W: Sink>(
        &self,
        totals: &mut Totals,
        is_reassembled: bool,
        head: &PacketHead,
        bytes: &[u8],
        frame: &[u8],
        output: &mut Output<W>,
    ) -> Result<(), Failure>
        requires fits { length bytes.now ≤ ROOM }
        requires chosen { IsChosen self.now head.now frame.now true }
        ensures told { OnOk result (TellsFrame W.contents self.now is_reassembled totals.old totals.new
            head.now bytes.now frame.now output.old output.new) }
        ensures kept { OnErr result (Prints W.contents output.old output.new []) }
        ensures failed { IfErr result (λ e. Because ⊥ (W.has_failed output.new.sink)
            (¬ HasRoom totals.old) e ⊥ [] []) }
        ensures unfailed_writes { OnOk result (NoWriteFails W.has_failed output.old output.new) }
    {
        let reading = read_numbered(head.link_type, left_out(head), frame);
        self.list_packet(totals, is_reassembled, head, bytes, reading, output)
    }

    // Counts a packet, and writes its line or the bytes of its block if it is listed. The
    // expression is asked first, since most of what a line says takes longer.
    #[inline(never)] // One copy of all that a frame takes is faster than three.
    fn list_frame<W: Sink>(
        &self,
        totals: &mut Totals,
        is_reassembled: bool,
        head: &PacketHead,
        bytes: &[u8],
        frame: &[u8],
        output: &mut Output<W>,
    ) -> Result<(), Failure>
        requires fits { length bytes.now ≤ ROOM }
        ensures told { OnOk result (TellsFrame W.contents self.now is_reassembled totals.old totals.new
            head.now bytes.now frame.now output.old output.new) }
        ensures kept { OnErr result (Prints W.contents output.old output.new []) }
        ensures failed { IfErr result (λ e. Because ⊥ (W.has_failed output.new.sink)
            (¬ HasRoom totals.old) e ⊥ [] []) }
        ensures unfailed_writes { OnOk result (NoWriteFails W.has_failed output.old output.new) }
    {
        if !self.is_chosen(head, frame) {
            return if totals.pass(bytes.len(), false, head) {
                Ok(())
            } else {
                Err(Failure::Count)
            };
        }
        if let Mode::Lines = self.mode {
            return self.list_line(totals, is_reassembled, head, bytes, frame, output);
        }
        let reading = read_numbered(head.link_type, left_out(head), frame);
        if !totals.count(bytes.len(), head, &reading) {
            return Err(Failure::Count);
        }
        output.copy_if(self.copies(), bytes)
    }

    // Counts a block without a packet, and writes its bytes if packets are written.
    fn list_other<W: Sink>(
        &self,
        totals: &mut Totals,
        bytes: &[u8],
        output: &mut Output<W>,
    ) -> Result<(), Failure>
        requires fits { length bytes.now ≤ ROOM }
        ensures told { OnOk result ((is_long : Bool) → TellsBlock W.contents self.now
            (length bytes.now) is_long no_packet totals.old totals.new bytes.now output.old
            output.new) }
        ensures kept { OnErr result (Prints W.contents output.old output.new []) }
        ensures failed { IfErr result (λ e. Because ⊥ (W.has_failed output.new.sink)
            (¬ HasRoom totals.old) e ⊥ [] []) }
        ensures unfailed_writes { OnOk result (NoWriteFails W.has_failed output.old output.new) }
    {
        totals.pass_block(bytes.len());
        output.copy_if(self.copies(), bytes)
    }

    // Counts a packet in a block that is too long, and writes its line, or the bytes of the block
    // that are given, if it is listed.
    fn list_too_long<W: Sink>(
        &self,
        totals: &mut Totals,
        head: &PacketHead,
        bytes: &[u8],
        output: &mut Output<W>,
    ) -> Result<(), Failure>
        requires fits { length bytes.now ≤ ROOM }
        ensures told { OnOk result (TellsBlock W.contents self.now (length bytes.now) true
            (packet false head.now (if_too_long self.now)) totals.old totals.new bytes.now
            output.old output.new) }
        ensures kept { OnErr result (Prints W.contents output.old output.new []) }
        ensures failed { IfErr result (λ e. Because ⊥ (W.has_failed output.new.sink)
            (¬ HasRoom totals.old) e ⊥ [] []) }
        ensures unfailed_writes { OnOk result (NoWriteFails W.has_failed output.old output.new) }
    {
        match &self.filter {
            None => self.list_packet(totals, false, head, bytes, Reading::Skipped, output),
            Some(_) => {
                if totals.pass(bytes.len(), true, head) {
                    Ok(())
                } else {
                    Err(Failure::Count)
                }
            }
        }
    }

    // Takes the frame of a packet, and counts and writes the packet that it completes, or else itself.
    #[inline(never)] // A listing without this is then no slower for it.
    fn list_taken<W: Sink>(
        &self,
        totals: &mut Totals,
        memory: &mut Reassembly,
        head: &PacketHead,
        bytes: &[u8],
        frame: &[u8],
        output: &mut Output<W>,
    ) -> Result<(), Failure>
        requires fits { length bytes.now ≤ ROOM }
        requires short { length frame.now ≤ 327680 }
        ensures told { OnOk result (TellsSaid W.contents self.now totals.old (Some memory.old)
            totals.new (Some memory.new) (said.packet head.now frame.now) bytes.now output.old
            output.new) }
        ensures kept { OnErr result (Prints W.contents output.old output.new []) }
        ensures failed { IfErr result (λ e. Because ⊥ (W.has_failed output.new.sink)
            (¬ HasRoom totals.old) e ⊥ [] []) }
        ensures unfailed_writes { OnOk result (NoWriteFails W.has_failed output.old output.new) }
    {
        let Some(len) = completed(totals, &mut memory.frames, head, frame, memory.out) else {
            return self.list_frame(totals, false, head, bytes, frame, output);
        };
        let head = head_of_whole(head, len);
        self.list_frame(totals, true, &head, bytes, &memory.out[..len], output)
    }

    // Counts a whole block, and writes what is written of it.
    #[inline(always)]
    fn list_block<W: Sink>(
        &self,
        place: &mut Place,
        block: &Block,
        bytes: &[u8],
        output: &mut Output<W>,
    ) -> Result<(), Failure>
        requires fits { length bytes.now ≤ ROOM }
        requires short { IsShort (said block.now) }
        ensures told { OnOk result (TellsSaid W.contents self.now place.old.totals
            place.old.memory place.new.totals place.new.memory (said block.now) bytes.now
            output.old output.new) }
        ensures capture { place.new.capture ≡ place.old.capture }
        ensures kept { OnErr result (Prints W.contents output.old output.new []) }
        ensures failed { IfErr result (λ e. Because ⊥ (W.has_failed output.new.sink)
            (¬ HasRoom place.old.totals) e ⊥ [] []) }
        ensures unfailed_writes { OnOk result (NoWriteFails W.has_failed output.old output.new) }
    {
        let totals = &mut place.totals;
        match block {
            Block::Packet { head, bytes: frame } => match &mut place.memory {
                None => self.list_frame(totals, false, head, bytes, frame, output),
                Some(memory) => self.list_taken(totals, memory, head, bytes, frame, output),
            },
            Block::Other => self.list_other(totals, bytes, output),
        }
    }

    // Lists the whole blocks at the front of the data. Returns the rest, and why no whole block
    // follows.
    fn list_front<'a, W: Sink>(
        &self,
        place: &mut Place,
        bytes: &'a [u8],
        output: &mut Output<W>,
    ) -> Result<(&'a [u8], Stop), Failure>
        requires room { length bytes.now ≤ ROOM }
        ensures told { IfOk result (λ x. Tells W.contents self.now place.old place.new
            (take (length bytes.now - length x.0.now) bytes.now) output.old output.new) }
        ensures rest { IfOk result (λ x.
            x.0.now ≡ drop (length bytes.now - length x.0.now) bytes.now) }
        ensures stops { IfOk result (λ x. Stops self.now place.new x.0.now x.1) }
        ensures failed { IfErr result (λ e. TellsFront W.contents self.now ⊥
            (W.has_failed output.new.sink) place.old e bytes.now output.old output.new) }
        ensures unfailed_writes { OnOk result (NoWriteFails W.has_failed output.old output.new) }
    {
        let most = max_len(&place.capture);
        let mut rest = bytes;
        'fronts: loop {
            if self.has_enough(place.totals.listed) {
                return Ok((rest, Stop::Enough));
            }
            let (block, after) = match next_block(&mut place.capture, rest) {
                Ok(Some(next)) => next,
                Ok(None) => return Ok((rest, Stop::Empty)),
                Err(BlockError::CutOff(e)) => return Ok((rest, Stop::CutOff(e))),
                Err(e) => return Ok((rest, Stop::Refused(e))),
            };
            let whole = &rest[..rest.len() - after.len()];
            if whole.len() > most {
                // A block of pcapng that is too long is never whole in the buffer.
                let Block::Packet { head, .. } = &block else {
                    unreachable!()
                };
                self.list_too_long(&mut place.totals, head, whole, output)?;
            } else {
                self.list_block(place, &block, whole, output)?;
            }
            rest = after;
        }
    }

    // Whether the bytes are kept of a block that is too long.
    fn keeps(&self, content: &Content) -> bool
        ensures value { result ≡ keeps self.now content.now }
    {
        match content {
            Content::Packet(_) => self.copies() && self.filter.is_none(),
            _ => self.copies(),
        }
    }

    // Counts a block that is too long, but for its length, and writes what is written of it but for
    // its bytes.
    fn list_front_of<W: Sink>(
        &self,
        totals: &mut Totals,
        front: &BlockFront,
        output: &mut Output<W>,
    ) -> Result<(), Failure>
        requires can { CanBeSkipped front.now.content }
        ensures told { OnOk result (TellsFrontOf W.contents self.now front.now totals.old
            totals.new output.old output.new) }
        ensures kept { OnErr result (Prints W.contents output.old output.new []) }
        ensures failed { IfErr result (λ e. Because ⊥ (W.has_failed output.new.sink)
            (¬ HasRoom totals.old) e ⊥ [] []) }
        ensures unfailed_writes { OnOk result (NoWriteFails W.has_failed output.old output.new) }
    {
        match &front.content {
            Content::Packet(head) => self.list_too_long(totals, head, &[], output),
            Content::Other => self.list_other(totals, &[], output),
            Content::Refused(_) | Content::Description => unreachable!(),
        }
    }

    // Lists and skips the block at the front of what has been read, which is too long.
    fn list_past<R: Source, W: Sink>(
        &self,
        place: &mut Place,
        cut: CutOff,
        input: &mut Input<R>,
        output: &mut Output<W>,
    ) -> Result<Turn, Failure>
        requires going { has_enough self.now place.old.totals.listed ≡ false }
        requires enough { front_len place.old.capture ≤ length (unread input.old) }
        requires refused { RefusesBlock place.old.capture (unread input.old)
            (BlockError.CutOff cut) }
        requires long { max_len place.old.capture < cut.required_len }
        requires reads_on { R.goes_on input.old.source }
        ensures turns { IfOk result (λ turn. Turns R.remaining W.contents self.now place.old
            place.new turn input.old input.new output.old output.new) }
        ensures failed { IfErr result (λ e. Breaks R.remaining W.contents self.now
            R.has_failed W.has_failed place.old e input.old input.new output.old output.new) }
        ensures unfailed { OnOk result (NoReadFails R.has_failed input.old input.new) }
        ensures unfailed_else { IfErr result (λ e. e ≢ Failure.Read →
            NoReadFails R.has_failed input.old input.new) }
        ensures unfailed_writes { OnOk result (NoWriteFails W.has_failed output.old output.new) }
        ensures goes_on { IfOk result (λ turn. turn ≡ Turn.GoesOn → R.goes_on input.new.source) }
    {
        let front = match place.capture.block_front(input.unread()) {
            Ok(front) => front,
            Err(_) => unreachable!(),
        };
        match front.content {
            Content::Refused(e) => return Ok(Turn::Ends(Some(End::Refused(e)))),
            Content::Description => return Ok(Turn::Ends(Some(End::TooLong(front.len)))),
            Content::Packet(_) | Content::Other => {}
        }
        self.list_front_of(&mut place.totals, &front, output)?;
        let (len, last) = skip(input, front.len, self.keeps(&front.content), output)?;
        if len < front.len {
            let required_len = front.len;
            return Ok(Turn::Ends(Some(End::CutOff(CutOff { required_len, len }))));
        }
        match front.check_end(last) {
            Ok(()) => {
                place.totals.pass_block(front.len);
                Ok(Turn::GoesOn)
            }
            Err(e) => Ok(Turn::Ends(Some(End::Refused(e)))),
        }
    }

    // Goes on after the whole blocks that have been read: lists and skips one that is too long, or
    // passes what is written of them to the sink, since a read can wait for more, and reads more.
    fn go_on<R: Source, W: Sink>(
        &self,
        place: &mut Place,
        stop: Stop,
        input: &mut Input<R>,
        output: &mut Output<W>,
    ) -> Result<Turn, Failure>
        requires stops { Stops self.now place.old (unread input.old) stop }
        requires reads_on { R.goes_on input.old.source }
        ensures turns { IfOk result (λ turn. Turns R.remaining W.contents self.now place.old
            place.new turn input.old input.new output.old output.new) }
        ensures failed { IfErr result (λ e. Breaks R.remaining W.contents self.now
            R.has_failed W.has_failed place.old e input.old input.new output.old output.new) }
        ensures unfailed { OnOk result (NoReadFails R.has_failed input.old input.new) }
        ensures unfailed_else { IfErr result (λ e. e ≢ Failure.Read →
            NoReadFails R.has_failed input.old input.new) }
        ensures unfailed_writes { OnOk result (NoWriteFails W.has_failed output.old output.new) }
        ensures goes_on { IfOk result (λ turn. turn ≡ Turn.GoesOn → R.goes_on input.new.source) }
    {
        let end = match stop {
            Stop::Enough => return Ok(Turn::Ends(None)),
            Stop::Refused(e) => return Ok(Turn::Ends(Some(End::Refused(e)))),
            Stop::CutOff(e) => {
                let is_long = e.required_len > max_len(&place.capture);
                if is_long && input.unread().len() >= place.capture.front_len() {
                    return self.list_past(place, e, input, output);
                }
                Some(End::CutOff(e))
            }
            Stop::Empty => None,
        };
        output.hand_over()?;
        if input.fill(output)? {
            Ok(Turn::GoesOn)
        } else {
            Ok(Turn::Ends(end))
        }
    }

    /// Lists the blocks, all or until as many packets are listed as were asked for, and counts them.
    /// Returns how the listing ends, if it ends before the capture does.
    pub fn list<R: Source, W: Sink>(
        &self,
        place: &mut Place,
        input: &mut Input<R>,
        output: &mut Output<W>,
    ) -> Result<Option<End>, Failure>
        requires reads_on { R.goes_on input.old.source }
        ensures ends { IfOk result (λ end. Ends R.remaining W.contents self.now place.old
            place.new.totals end input.old input.new output.old output.new) }
        ensures failed { IfErr result (λ e. Breaks R.remaining W.contents self.now
            R.has_failed W.has_failed place.old e input.old input.new output.old output.new) }
        ensures unfailed { OnOk result (NoReadFails R.has_failed input.old input.new) }
        ensures unfailed_else { IfErr result (λ e. e ≢ Failure.Read →
            NoReadFails R.has_failed input.old input.new) }
        ensures unfailed_writes { OnOk result (NoWriteFails W.has_failed output.old output.new) }
    {
        'turns: loop {
            let bytes = input.unread();
            let (rest, stop) = self.list_front(place, bytes, output)?;
            let passed = bytes.len() - rest.len();
            input.pass(passed);
            if let Turn::Ends(end) = self.go_on(place, stop, input, output)? {
                return Ok(end);
            }
        }
    }
}
