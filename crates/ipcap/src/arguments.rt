//! The command line: options, the file that is read, and the words of an expression.

ghost use Rattle.std.specs.Prelude.{◌≡◌, ◌<◌, ◌≤◌, ◌++◌, ◌↔◌, IfErr, IfOk, IsFalse, IsOk, IsTrue};
ghost use Rattle.std.specs.Prelude.{List, None, OnErr, OnOk, codes, false, length, map};
ghost use Rattle.std.specs.Prelude.{string_bytes, true};
ghost use Rattle.std.specs.List.{cons_option};
ghost use Rattle.clap.specs.Words.{app_of, first_value, found_of, one_text, rule_of};
ghost use Rattle.ipcap.specs.Arguments.{BeginsExpression, IsLimit, IsModeOf, NamesFile, NamesInput};
ghost use Rattle.ipcap.specs.Arguments.{ReadsWords, RefusesMatches, arguments_error_text};
ghost use Rattle.ipcap.specs.Arguments.{exclusion_of, is_given, joined, text_of, texts_of};
ghost use Rattle.ipcap.specs.Arguments.{words_after};
ghost use Rattle.ipcap.specs.Options.{app_with, expression, file, flag, limit, numbers};
ghost use Rattle.ipcap.specs.Options.{option_with_value, options};
ghost use Rattle.ipcap.specs.Program.{HasNoMatches, IsCommandLine};

use crate::request::{Mode, is_space};
use arrayvec::ArrayVec;
use clap::{Arg, ArgAction, ArgMatches, Command, value_parser};
use packet_filter::{Filter, FilterError};
use std::alloc::{AllocError, Global};

/// The most bytes in an expression.
pub const TEXT_ROOM: usize = 4096;

const _: () = prove!(TEXT_ROOM == 4096);

/// The text of an expression.
pub type Text = ArrayVec<u8, TEXT_ROOM>;

/// What the command line asks for.
#[derive(Drop)]
pub struct Arguments<'a> {
    /// What is written of the records that are listed.
    pub mode: Mode,
    /// Whether times are written as dates in UTC.
    pub is_utc: bool,
    /// Whether packets are put together of their fragments.
    pub reassembles: bool,
    /// After how many listed records the run ends.
    pub limit: Option<u64>,
    /// The file that is read; `None` for standard input.
    pub input: Option<&'a str>,
    /// The file that records are written to; `None` for standard output.
    pub output: Option<&'a str>,
    /// The words of the expression, joined by blanks.
    pub text: Text,
}

/// Two options that exclude each other.
#[derive(Clone, Copy)]
pub enum Exclusion {
    /// `--count` and `-w`.
    CountAndWrite,
    /// `--quiet` and `--count`.
    QuietAndCount,
    /// `--quiet` and `-w`.
    QuietAndWrite,
    /// `--reassemble` and `-w`.
    ReassembleAndWrite,
}

/// Why a command line gives no arguments.
#[derive(Clone, Copy)]
pub enum ArgumentsError {
    /// Two options exclude each other.
    Excluded(Exclusion),
    /// The expression has more than 4096 bytes.
    TooLong,
}

impl ArgumentsError {
    /// What is said of it.
    pub fn text(self) -> &'static str
        ensures value { result.now ≡ arguments_error_text self }
    {
        match self {
            ArgumentsError::Excluded(Exclusion::CountAndWrite) => "--count cannot be used with -w",
            ArgumentsError::Excluded(Exclusion::QuietAndCount) => {
                "--quiet cannot be used with --count"
            }
            ArgumentsError::Excluded(Exclusion::QuietAndWrite) => "--quiet cannot be used with -w",
            ArgumentsError::Excluded(Exclusion::ReassembleAndWrite) => {
                "--reassemble cannot be used with -w"
            }
            ArgumentsError::TooLong => "the expression has more than 4096 bytes",
        }
    }
}

// A text has more than 4096 bytes.
#[derive(Clone, Copy)]
struct NoRoom;

// What follows the options in the text of `--help`.
const AFTER_HELP: &str = "\
FILE is read, a capture in the classic format or in pcapng; `-` and none are standard input. It is
the first word that is no option, unless it begins like an expression, or with an unsupported word
of pcap-filter(7): then `-r FILE` names the file.
EXPRESSION chooses packets. It has up to 64 words: most words of pcap-filter(7), as in `tcp port 80
or udp port 53`, and `fragment`, `first fragment` and `checksum wrong`.

Link types: 0 (BSD loopback), 1 (Ethernet), 8 (SLIP), 9 and 50 (PPP), 12, 14, 101, 228 and 229
(raw IP), 104 (Cisco HDLC), 105 and 127 (802.11), 107 (frame relay), 108 (OpenBSD loopback), 113
and 276 (Linux cooked).

A line has these words:
  1 NUMBER  2 TIME  3 SOURCE  4 >  5 DESTINATION  6 PROTOCOL  7 PORTS or TYPE/CODE  8 length
  9 BYTES  10 hops  11 HOPS  12 fragment  13 PLACE  14 checksums  15 HEADER  16 PAYLOAD
or after NUMBER and TIME `error:`, `other:` or `skipped:` and a reason. With --reassemble the line of
the packet that completes a fragmented one is about the whole, and ends with `reassembled`. A line
can also end with `total length 0` or `payload length 0`, and with `cut CAPTURED/ORIGINAL`.

Examples:
  ipcap trace.pcap                           a line for each packet
  ipcap -c 10 trace.pcap icmp or arp         the first ten packets that match
  ipcap -w dns.pcap trace.pcap port 53       the packets that match, as a capture
  ipcap --count trace.pcap checksum wrong    how many packets have a wrong checksum
  ipcap --reassemble trace.pcap              also what fragmented packets are as a whole

Exit status: 0 done, 1 the capture is cut off or a block of it is refused, 2 the words are wrong, or
the file cannot be opened or is no capture that is read, 3 a read or a write failed, or there was no
memory.";

/// The options and the words that there are.
///
/// # Errors
///
/// An `AllocError` if there is no memory for them.
pub fn command<'a>(alloc: Global) -> Result<Command<'a>, AllocError>
    ensures options { IfOk result (λ command. app_of command ≡ app_with options) }
{
    let args = vec![in alloc;
        with_value(
            alloc,
            "read",
            'r',
            "FILE",
            "Read FILE; `-` is standard input"
        ),
        with_value(
            alloc,
            "write",
            'w',
            "FILE",
            "Write the packets to FILE; `-` is standard output"
        ),
        limit(alloc),
        flag(
            alloc,
            "count",
            "Print how many packets match, and no other line of output"
        ),
        flag(
            alloc,
            "quiet",
            "Print the counts at the end alone, to standard output"
        ),
        numbers(alloc),
        flag(alloc, "utc", "Print times as dates in UTC"),
        flag(alloc, "reassemble", "Put fragmented packets together"),
        file(alloc),
        expression(alloc),
    ]?;
    Command::new(alloc, "ipcap")
        .version("0.1.0")
        .about("Lists the packets of a capture.")
        .after_help(AFTER_HELP)
        .args(args)
}

/// Reads the words of a command line, of which the first is the program's name.
///
/// # Errors
///
/// An `AllocError` if there is no memory for the options that there are.
pub fn read_words<'a>(
    alloc: Global,
    words: &'a [String],
) -> Result<Result<ArgMatches<'a>, clap::Error>, AllocError>
    ensures matches { IfOk result (λ read. IfOk read
        (IsCommandLine (map string_bytes words.entry.now))) }
    ensures none { IfOk result (λ read. IfErr read
        (HasNoMatches (map string_bytes words.entry.now))) }
{
    Ok(command(alloc)?.try_get_matches_from(words))
}

// An option with a value, by its letter.
fn with_value<'a>(
    alloc: Global,
    id: &'a str,
    letter: char,
    value: &'a str,
    help: &'a str,
) -> Arg<'a>
    ensures rule { rule_of result ≡ option_with_value id.now letter }
{
    Arg::new(alloc, id)
        .short(letter)
        .value_name(value)
        .help(help)
}

// The option `-c`.
fn limit<'a>(alloc: Global) -> Arg<'a>
    ensures rule { rule_of result ≡ limit }
{
    let help = "Stop once N packets are listed";
    with_value(alloc, "limit", 'c', "N", help).value_parser(value_parser!(u64).range(1..))
}

// The option `-n`.
fn numbers<'a>(alloc: Global) -> Arg<'a>
    ensures rule { rule_of result ≡ numbers }
{
    Arg::new(alloc, "numbers")
        .short('n')
        .action(ArgAction::Count)
        .help("Changes nothing: addresses and ports are always numbers")
}

// The word that names a file, or begins an expression.
fn file<'a>(alloc: Global) -> Arg<'a>
    ensures rule { rule_of result ≡ file }
{
    Arg::new(alloc, "FILE").help("Read FILE, unless an expression can begin with it")
}

// The words of an expression.
fn expression<'a>(alloc: Global) -> Arg<'a>
    ensures rule { rule_of result ≡ expression }
{
    Arg::new(alloc, "EXPRESSION")
        .action(ArgAction::Append)
        .num_args(0..)
        .help("List the packets that match")
}

// An option without a value, by its long name.
fn flag<'a>(alloc: Global, name: &'a str, help: &'a str) -> Arg<'a>
    ensures rule { rule_of result ≡ flag name.now }
{
    Arg::new(alloc, name)
        .long(name)
        .action(ArgAction::SetTrue)
        .help(help)
}

impl<'a> Arguments<'a> {
    /// What the matches of a command line say.
    ///
    /// # Errors
    ///
    /// `Excluded` if two of the options that are given exclude each other, with the first such
    /// pair in the order of [`Exclusion`]; otherwise `TooLong` if the expression has more than
    /// 4096 bytes.
    pub fn from_matches(matches: &ArgMatches<'a>) -> Result<Arguments<'a>, ArgumentsError>
        ensures apart { IfOk result (λ _. exclusion_of matches.now ≡ None) }
        ensures mode { IfOk result (λ a. IsModeOf matches.now a.mode) }
        ensures utc { IfOk result (λ a. a.is_utc ≡ is_given matches.now (codes "utc")) }
        ensures reassembles { IfOk result (λ a.
            a.reassembles ≡ is_given matches.now (codes "reassemble")) }
        ensures limit { IfOk result (λ a.
            IsLimit (one_text (found_of matches.now) (codes "limit")) a.limit) }
        ensures output { IfOk result (λ a.
            text_of a.output ≡ first_value (found_of matches.now) (codes "write")) }
        ensures input { IfOk result (λ a. ReadsWords matches.now (text_of a.input) a.text.items) }
        ensures refused { IfErr result (RefusesMatches matches.now) }
    {
        if let Some(pair) = exclusion_of(matches) {
            return Err(ArgumentsError::Excluded(pair));
        }
        let (input, first) = file_or_word(matches.get_str("read"), matches.get_str("FILE"));
        let others = matches.get_strs("EXPRESSION").unwrap_or(&[]);
        let text = match expression_text(first, others) {
            Ok(text) => text,
            Err(_) => return Err(ArgumentsError::TooLong),
        };
        Ok(Arguments {
            mode: mode_of(matches),
            is_utc: is_given(matches, "utc"),
            reassembles: is_given(matches, "reassemble"),
            limit: matches.get_one::<u64>("limit"),
            input,
            output: matches.get_str("write"),
            text,
        })
    }
}

// Whether an option without a value is given.
fn is_given(matches: &ArgMatches, id: &str) -> bool
    ensures value { result ≡ is_given matches.now id.now }
{
    matches.get_one::<bool>(id).unwrap_or(false)
}

// The first two options that are given and exclude each other.
fn exclusion_of(matches: &ArgMatches) -> Option<Exclusion>
    ensures value { result ≡ exclusion_of matches.now }
{
    let writes = matches.contains_id("write");
    let counts = is_given(matches, "count");
    let is_quiet = is_given(matches, "quiet");
    if counts && writes {
        Some(Exclusion::CountAndWrite)
    } else if is_quiet && counts {
        Some(Exclusion::QuietAndCount)
    } else if is_quiet && writes {
        Some(Exclusion::QuietAndWrite)
    } else if is_given(matches, "reassemble") && writes {
        Some(Exclusion::ReassembleAndWrite)
    } else {
        None
    }
}

// What is written of the records that are listed.
fn mode_of(matches: &ArgMatches) -> Mode
    requires apart { exclusion_of matches.now ≡ None }
    ensures mode { IsModeOf matches.now result }
{
    if matches.contains_id("write") {
        Mode::Packets
    } else if is_given(matches, "count") {
        Mode::Count
    } else if is_given(matches, "quiet") {
        Mode::Quiet
    } else {
        Mode::Lines
    }
}

// The file that is read, and the word that the expression begins with.
fn file_or_word<'a>(
    named: Option<&'a str>,
    first: Option<&'a str>,
) -> (Option<&'a str>, Option<&'a str>)
    ensures names { NamesInput (text_of named.entry) (text_of first.entry) (text_of result.0)
        (text_of result.1) }
{
    if named.is_some() {
        return (named, first);
    }
    match first {
        Some(word) if names_file(word.as_bytes()) => (first, None),
        Some(_) => (None, first),
        None => (None, None),
    }
}

/// Whether no expression can begin with the first word of an argument, which then names a file.
fn names_file(word: &[u8]) -> bool
    ensures yes { IsTrue result → NamesFile word.now }
    ensures no { IsFalse result → BeginsExpression word.now }
{
    match Filter::from_text(word) {
        Err(FilterError::Unexpected { place, .. }) => {
            place < word.len() && word[..place].iter().all(|byte| is_space(*byte))
        }
        _ => false,
    }
}

// The text of an expression, by its words.
fn expression_text(first: Option<&str>, others: &[&str]) -> Result<Text, NoRoom>
    ensures joins { IfOk result (λ text. text.items
        ≡ words_after false (cons_option (text_of first.entry) (texts_of others.now))) }
    ensures long { OnErr result (TEXT_ROOM < length
        (words_after false (cons_option (text_of first.entry) (texts_of others.now)))) }
{
    let mut text = Text::new();
    let has_begun = match first {
        Some(word) => join(&mut text, false, word.as_bytes())?,
        None => false,
    };
    join_all(&mut text, has_begun, others)?;
    Ok(text)
}

// Adds words to a text, after a blank each, but for the first one if no word stands before it.
fn join_all(text: &mut Text, has_begun: bool, words: &[&str]) -> Result<(), NoRoom>
    ensures joins { OnOk result (text.new.items
        ≡ text.old.items ++ words_after has_begun (texts_of words.now)) }
    ensures long { OnErr result (TEXT_ROOM < length (text.old.items
        ++ words_after has_begun (texts_of words.now))) }
{
    let mut has_begun = has_begun;
    for word in words {
        has_begun = join(text, has_begun, word.as_bytes())?;
    }
    Ok(())
}

// Adds a word to a text, after a blank unless it is the first; whether there is room for it.
fn join(text: &mut Text, has_begun: bool, word: &[u8]) -> Result<bool, NoRoom>
    ensures joins { OnOk result (text.new.items ≡ joined has_begun text.old.items word.now) }
    ensures fits { IsOk result ↔ (length (joined has_begun text.old.items word.now) ≤ TEXT_ROOM) }
    ensures begins { IfOk result (λ begun. begun ≡ true) }
{
    let blanks = if has_begun { 1 } else { 0 };
    if text.remaining_capacity() < blanks + word.len() {
        return Err(NoRoom);
    }
    if has_begun {
        text.push(b' ');
    }
    let _fits = text.try_extend_from_slice(word);
    Ok(true)
}
