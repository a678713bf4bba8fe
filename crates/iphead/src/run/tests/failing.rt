//! Readers and writers that give or take little at a time, fail at a chosen call, or never end.
//! They record how they are called.

use super::*;
use std::io::ErrorKind;

// A reader that gives at most a set number of bytes per call, and fails at the call with a given
// number, counted from 1.
#[derive(Drop)]
struct Source<'a> {
    left: &'a [u8],
    at_most: usize,
    fails_at: u64,
    kind: ErrorKind,
    calls: u64,
    // A call failed, or said that the input is at its end.
    is_over: bool,
    // A call came after that, or was not for 512 bytes.
    is_misused: bool,
}

impl<'a> Source<'a> {
    fn failing(left: &'a [u8], at_most: usize, fails_at: u64, kind: ErrorKind) -> Source<'a> {
        Source {
            left,
            at_most,
            fails_at,
            kind,
            calls: 0,
            is_over: false,
            is_misused: false,
        }
    }
}

impl Read for Source<'_> {
    fn read(&mut self, buf: &mut [u8]) -> io::Result<usize> {
        self.is_misused = self.is_misused || self.is_over || buf.len() != 512;
        self.calls = self.calls.saturating_add(1);
        if self.calls == self.fails_at {
            self.is_over = true;
            return Err(io::Error::from(self.kind));
        }
        let len = self.left.len().min(buf.len()).min(self.at_most);
        buf[..len].copy_from_slice(&self.left[..len]);
        self.left = &self.left[len..];
        self.is_over = len == 0;
        Ok(len)
    }
}

// A writer that takes at most a set number of bytes per call, and fails at the call with a given
// number, counted from 1: by an error, or, for `WriteZero`, by taking nothing.
#[derive(Drop)]
struct Sink {
    taken: Text,
    at_most: usize,
    fails_at: usize,
    kind: ErrorKind,
    calls: usize,
}

impl Write for Sink {
    fn write(&mut self, buf: &[u8]) -> io::Result<usize> {
        self.calls = self.calls.saturating_add(1);
        if self.calls == self.fails_at {
            return match self.kind {
                ErrorKind::WriteZero => Ok(0),
                kind => Err(io::Error::from(kind)),
            };
        }
        let len = buf.len().min(self.at_most);
        self.taken.write_all(&buf[..len])?;
        Ok(len)
    }

    fn flush(&mut self) -> io::Result<()> {
        Ok(())
    }
}

// Runs over a reader, and compares the status, the text and the number of calls.
fn expect_from(rt: &impl Abort, mut source: Source, calls: u64, (status, text): (Status, &[u8])) {
    let mut written = Text::new();
    let ended = run(&mut source, &mut written);
    let seen = (ended, written.as_slice(), source.calls, source.is_misused);
    assert_equal(rt, seen, (status, text, calls, false));
}

// An input and its output, how a run ends, at most how many bytes a call gives, and how many reads
// the run then makes. One of them says that the input is at its end, unless it got too long before
// that.
static READS: [(Row, Status, usize, u64); 10] = [
    ((&[], &[NO_BYTES]), Status::Refused, usize::MAX, 1),
    ((&[(IPV6, 1)], &[IPV6_LINES]), Status::Done, usize::MAX, 2),
    (
        (&[(INCOMPLETE, 1)], &[INCOMPLETE_LINES]),
        Status::Refused,
        usize::MAX,
        2,
    ),
    (
        (&[("g", 4096)], &[NOT_HEX]),
        Status::BadInput,
        usize::MAX,
        9,
    ),
    (
        (&[("g", 4608)], &[TOO_LONG]),
        Status::BadInput,
        usize::MAX,
        9,
    ),
    (
        (&[(" ", 65537)], &[TOO_LONG]),
        Status::BadInput,
        usize::MAX,
        129,
    ),
    ((&[(IPV6, 1)], &[IPV6_LINES]), Status::Done, 1, 90),
    (
        (&[(INCOMPLETE, 1)], &[INCOMPLETE_LINES]),
        Status::Refused,
        1,
        115,
    ),
    ((&[(IPV4, 1)], &[IPV4_LINES]), Status::Done, 1, 45),
    ((&[(OPTIONS, 1)], &OPTIONS_LINES), Status::Done, 1, 57),
];

// Makes each read of a run fail in turn: that read is the last one, and nothing is printed. There
// is no read after the last.
fn expect_each_read_ends_it(
    rt: &impl Abort,
    input: &[u8],
    at_most: usize,
    reads: u64,
    kind: ErrorKind,
    whole: (Status, &[u8]),
) {
    for fails_at in 1..=reads {
        let source = Source::failing(input, at_most, fails_at, kind);
        expect_from(rt, source, fails_at, (Status::Failed, b""));
    }
    let source = Source::failing(input, at_most, reads.saturating_add(1), kind);
    expect_from(rt, source, reads, whole);
}

// The reads fail in three ways.
#[test]
fn a_read_that_fails_ends_the_run(rt: HostRuntime) {
    for ((parts, text), status, at_most, reads) in &READS {
        let input = joined(parts, rt.alloc()).expect(&rt, "memory");
        let text = text.concat(rt.alloc()).expect(&rt, "memory");
        for kind in [
            ErrorKind::Other,
            ErrorKind::Interrupted,
            ErrorKind::UnexpectedEof,
        ] {
            let whole = (*status, text.as_bytes());
            expect_each_read_ends_it(&rt, input.as_slice(), *at_most, *reads, kind, whole);
        }
    }
}

#[test]
fn input_without_an_end_is_too_long(rt: HostRuntime) {
    for byte in [b'0', b' '] {
        let mut written = Text::new();
        let ended = run(&mut io::repeat(byte), &mut written);
        let expected = (Status::BadInput, TOO_LONG.as_bytes());
        assert_equal(&rt, (ended, written.as_slice()), expected);
    }
}

// Makes each write of a run fail in turn, over a writer that takes at most a set number of bytes
// per call: that write is the last one, and all that came before it is taken. There is no write
// after the last. A write that was interrupted may be tried again, and then all of the text is
// taken.
fn expect_each_write_ends_it(
    rt: &impl Abort,
    input: &[u8],
    at_most: usize,
    kind: ErrorKind,
    whole: (Status, &[u8]),
) {
    for fails_at in 1..1000 {
        let sink = Sink {
            taken: Text::new(),
            at_most,
            fails_at,
            kind,
            calls: 0,
        };
        if ends_before_a_failure(rt, input, sink, whole) {
            return;
        }
    }
    panic!(rt; "no run met no failure");
}

// Runs over a writer, compares the status, what was taken and the number of calls, and returns
// whether the run ended before the call that fails.
fn ends_before_a_failure(
    rt: &impl Abort,
    input: &[u8],
    mut sink: Sink,
    whole: (Status, &[u8]),
) -> bool {
    let mut reader = input;
    let ended = run(&mut reader, &mut sink);
    let seen = (ended, sink.taken.as_slice());
    let calls = sink.fails_at.saturating_sub(1);
    let before = sink.at_most.saturating_mul(calls);
    if whole.1.len() <= before {
        assert_equal(rt, (seen, sink.calls), (whole, calls));
        return true;
    }
    let is_tried_again = seen == whole && sink.kind == ErrorKind::Interrupted;
    if !is_tried_again {
        let cut = (Status::Failed, &whole.1[..before]);
        assert_equal(rt, (seen, sink.calls), (cut, sink.fails_at));
    }
    false
}

static WRITES: [(Row, Status); 8] = [
    ((&[(IPV6, 1)], &[IPV6_LINES]), Status::Done),
    ((&[(IPV4, 1)], &[IPV4_LINES]), Status::Done),
    ((&[(OPTIONS, 1)], &OPTIONS_LINES), Status::Done),
    ((&[(INCOMPLETE, 1)], &[INCOMPLETE_LINES]), Status::Refused),
    ((&[], &[NO_BYTES]), Status::Refused),
    ((&[("60", 1)], &[ONE_BYTE_OF_IPV6]), Status::Refused),
    ((&[("6g", 1)], &[NOT_HEX]), Status::BadInput),
    ((&[("g", 4097)], &[TOO_LONG]), Status::BadInput),
];

// They fail in three ways, over writers that take one byte, a few, and all that they are given: for
// the last, the output is one write.
#[test]
fn a_write_that_fails_ends_the_run(rt: HostRuntime) {
    for ((parts, text), status) in &WRITES {
        let input = joined(parts, rt.alloc()).expect(&rt, "memory");
        let text = text.concat(rt.alloc()).expect(&rt, "memory");
        for kind in [
            ErrorKind::Other,
            ErrorKind::Interrupted,
            ErrorKind::WriteZero,
        ] {
            for at_most in [1, 7, usize::MAX] {
                let whole = (*status, text.as_bytes());
                expect_each_write_ends_it(&rt, input.as_slice(), at_most, kind, whole);
            }
        }
    }
}
