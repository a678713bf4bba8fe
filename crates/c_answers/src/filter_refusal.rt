//! Why a text is no filter, by its numbers, and the text of that.

ghost use Rattle.std.specs.Prelude.{ℕ, ◌≡◌, ◌≢◌, ◌≤◌, ◌+◌, ◌++◌, [], IfSome, Some, codes, length};
ghost use Rattle.std.specs.Fmt.{decimal};
ghost use Rattle.c_answers.specs.Text.{GivesText};
ghost use Rattle.packet_filter.specs.Expected.{expected_text};
ghost use Rattle.packet_filter.specs.Language.{filter_error_text, readings_text};
ghost use Rattle.packet_filter.specs.declared.expected.Expected.{Expected as Words};
ghost use Rattle.packet_filter.specs.declared.expression.Operator.{Operator as Joiner};
ghost use Rattle.packet_filter.specs.declared.reading.FilterError.{FilterError as Refused};
ghost use Rattle.c_answers.specs.FilterRefusal.{expected_in_c, no_refusal, operator_in_c};
ghost use Rattle.c_answers.specs.FilterRefusal.{refusal_in_c};

use crate::text::{digits, put, put_number};
use itoa::Buffer;
use packet_filter::{Expected, FilterError, Operator, Version};

// The kinds of refusals; 0 is none.
const UNEXPECTED: u32 = 1;

const MIXED: u32 = 2;

const UNSUPPORTED: u32 = 3;

const INCOMPLETE: u32 = 4;

const TOO_LONG: u32 = 5;

/// Why a text is no filter, as numbers; each number that its kind does not have is 0.
#[repr(C)]
#[derive(Drop)]
pub struct FilterRefusal {
    /// Where the word begins that the refusal is about, in bytes from the start of the text; of kind
    /// 4 the end of the text.
    pub place: usize,
    /// Which refusal it is: 0 none, 1 a word that cannot stand at that place, 2 `and` and `or` on
    /// one level, 3 a word of pcap-filter(7) that the language lacks, 4 more words have to follow, 5
    /// the word after the first 64.
    pub kind: u32,
    /// For kinds 1 and 4 what could stand there, from 1 to 35.
    pub expected: u16,
    /// For kind 2 the operator at that place: 1 `and`, 2 `or`.
    pub found: u16,
}

impl FilterRefusal {
    // No text was refused.
    pub(crate) fn none() -> FilterRefusal
        ensures value { result ≡ no_refusal }
    {
        FilterRefusal {
            place: 0,
            kind: 0,
            expected: 0,
            found: 0,
        }
    }

    // The refusal of a text that has so many bytes.
    pub(crate) fn of_error(end: usize, error: &FilterError) -> FilterRefusal
        ensures value { result ≡ refusal_in_c end error.now }
    {
        match error {
            FilterError::Unexpected { place, expected } => FilterRefusal {
                place: *place,
                kind: UNEXPECTED,
                expected: expected_number(*expected),
                found: 0,
            },
            FilterError::Mixed { place, operator } => FilterRefusal {
                place: *place,
                kind: MIXED,
                expected: 0,
                found: operator_number(*operator),
            },
            FilterError::Unsupported { place } => FilterRefusal {
                place: *place,
                kind: UNSUPPORTED,
                expected: 0,
                found: 0,
            },
            FilterError::Incomplete { expected } => FilterRefusal {
                place: end,
                kind: INCOMPLETE,
                expected: expected_number(*expected),
                found: 0,
            },
            FilterError::TooLong { place } => FilterRefusal {
                place: *place,
                kind: TOO_LONG,
                expected: 0,
                found: 0,
            },
        }
    }
}

// The number of what could stand at a place.
fn expected_number(expected: Expected) -> u16
    ensures value { result ≡ expected_in_c expected }
{
    match expected {
        Expected::Operand => 1,
        Expected::Operator {
            before: None,
            open: false,
        } => 2,
        Expected::Operator {
            before: None,
            open: true,
        } => 3,
        Expected::Operator {
            before: Some(Operator::And),
            open: false,
        } => 4,
        Expected::Operator {
            before: Some(Operator::And),
            open: true,
        } => 5,
        Expected::Operator {
            before: Some(Operator::Or),
            open: false,
        } => 6,
        Expected::Operator {
            before: Some(Operator::Or),
            open: true,
        } => 7,
        Expected::AfterIp => 8,
        Expected::AfterNetwork => 9,
        Expected::AfterTransport => 10,
        Expected::AfterVlan => 11,
        Expected::AfterDirection => 12,
        Expected::AfterTransportDirection => 13,
        Expected::AfterEther => 14,
        Expected::Destination => 15,
        Expected::Address(None) => 16,
        Expected::Address(Some(Version::Ipv4)) => 17,
        Expected::Address(Some(Version::Ipv6)) => 18,
        Expected::Network(None) => 19,
        Expected::Network(Some(Version::Ipv4)) => 20,
        Expected::Network(Some(Version::Ipv6)) => 21,
        Expected::AfterAddress => 22,
        Expected::Mask => 23,
        Expected::Port => 24,
        Expected::PortRange => 25,
        Expected::Protocol => 26,
        Expected::EthernetAddress => 27,
        Expected::EtherType => 28,
        Expected::Fragment => 29,
        Expected::Wrong => 30,
        Expected::Place => 31,
        Expected::CloseBracket => 32,
        Expected::Relation => 33,
        Expected::Number => 34,
        Expected::Bits => 35,
    }
}

// The number of an operator.
fn operator_number(operator: Operator) -> u16
    ensures value { result ≡ operator_in_c operator }
{
    match operator {
        Operator::And => 1,
        Operator::Or => 2,
    }
}

// What has this number.
fn expected_of(number: u16) -> Option<Expected>
    ensures numbered { IfSome result (λ e. number ≡ expected_in_c e) }
    ensures found { (e : Words) → number ≡ expected_in_c e → result ≡ Some e }
{
    let expected = match number {
        1 => Expected::Operand,
        2 => Expected::Operator {
            before: None,
            open: false,
        },
        3 => Expected::Operator {
            before: None,
            open: true,
        },
        4 => Expected::Operator {
            before: Some(Operator::And),
            open: false,
        },
        5 => Expected::Operator {
            before: Some(Operator::And),
            open: true,
        },
        6 => Expected::Operator {
            before: Some(Operator::Or),
            open: false,
        },
        7 => Expected::Operator {
            before: Some(Operator::Or),
            open: true,
        },
        8 => Expected::AfterIp,
        9 => Expected::AfterNetwork,
        10 => Expected::AfterTransport,
        11 => Expected::AfterVlan,
        12 => Expected::AfterDirection,
        13 => Expected::AfterTransportDirection,
        14 => Expected::AfterEther,
        15 => Expected::Destination,
        16 => Expected::Address(None),
        17 => Expected::Address(Some(Version::Ipv4)),
        18 => Expected::Address(Some(Version::Ipv6)),
        19 => Expected::Network(None),
        20 => Expected::Network(Some(Version::Ipv4)),
        21 => Expected::Network(Some(Version::Ipv6)),
        22 => Expected::AfterAddress,
        23 => Expected::Mask,
        24 => Expected::Port,
        25 => Expected::PortRange,
        26 => Expected::Protocol,
        27 => Expected::EthernetAddress,
        28 => Expected::EtherType,
        29 => Expected::Fragment,
        30 => Expected::Wrong,
        31 => Expected::Place,
        32 => Expected::CloseBracket,
        33 => Expected::Relation,
        34 => Expected::Number,
        35 => Expected::Bits,
        _ => return None,
    };
    Some(expected)
}

// The operator that has this number.
fn operator_of(number: u16) -> Option<Operator>
    ensures numbered { IfSome result (λ o. number ≡ operator_in_c o) }
    ensures found { (o : Joiner) → number ≡ operator_in_c o → result ≡ Some o }
{
    match number {
        1 => Some(Operator::And),
        2 => Some(Operator::Or),
        _ => None,
    }
}

// The error with these numbers.
fn error_of(refusal: &FilterRefusal) -> Option<FilterError>
    ensures numbered { IfSome result (λ e. refusal.now ≡ refusal_in_c refusal.now.place e) }
    ensures found { (end : ℕ) → (e : Refused) → refusal.now ≡ refusal_in_c end e →
        result ≡ Some e }
{
    let place = refusal.place;
    match refusal.kind {
        UNEXPECTED if refusal.found == 0 => match expected_of(refusal.expected) {
            Some(expected) => Some(FilterError::Unexpected { place, expected }),
            None => None,
        },
        MIXED if refusal.expected == 0 => match operator_of(refusal.found) {
            Some(operator) => Some(FilterError::Mixed { place, operator }),
            None => None,
        },
        UNSUPPORTED if refusal.expected == 0 && refusal.found == 0 => {
            Some(FilterError::Unsupported { place })
        }
        INCOMPLETE if refusal.found == 0 => match expected_of(refusal.expected) {
            Some(expected) => Some(FilterError::Incomplete { expected }),
            None => None,
        },
        TOO_LONG if refusal.expected == 0 && refusal.found == 0 => {
            Some(FilterError::TooLong { place })
        }
        _ => None,
    }
}

/// Writes the text of the refusal with these numbers to the front of a buffer, as much of it as
/// there is room for, and a byte 0 after it; returns how many bytes the whole text has, without that
/// 0. Numbers that no refusal has, and those of none, have the empty text.
pub fn put_refusal(refusal: &FilterRefusal, text: &mut [u8]) -> usize
    ensures gives { (end : ℕ) → (e : Refused) → refusal.now ≡ refusal_in_c end e →
        GivesText (filter_error_text e) text.old text.new result }
    ensures none { ((end : ℕ) → (e : Refused) → refusal.now ≢ refusal_in_c end e) →
        GivesText [] text.old text.new result }
{
    match error_of(refusal) {
        Some(error) => put_error(&error, text),
        None => put(&[], text),
    }
}

// Writes the text of an error.
fn put_error(error: &FilterError, text: &mut [u8]) -> usize
    ensures gives { GivesText (filter_error_text error.now) text.old text.new result }
{
    match error {
        FilterError::Unexpected { place, expected } => put_words(
            "Expression Error: The word at byte ",
            *place,
            " cannot stand there: expected ",
            expected_text(*expected),
            text,
        ),
        FilterError::Mixed { place, operator } => put_words(
            "Expression Error: `and` and `or` stand together at byte ",
            *place,
            ": parentheses have to say which comes first, as in ",
            readings_text(*operator),
            text,
        ),
        FilterError::Unsupported { place } => put_number(
            "Expression Error: The word of pcap-filter(7) at byte ",
            *place,
            " is not part of the language.",
            text,
        ),
        FilterError::Incomplete { expected } => put(
            &[
                "Expression Error: It ends where more words have to follow: expected ",
                expected_text(*expected),
                ".",
            ],
            text,
        ),
        FilterError::TooLong { place } => put_number(
            "Expression Error: It has more than 64 words: the first beyond them is at byte ",
            *place,
            ".",
            text,
        ),
    }
}

// Writes a number between two texts, and these words and a full stop after them.
fn put_words(
    before: &'static str,
    number: usize,
    after: &'static str,
    words: &'static str,
    text: &mut [u8],
) -> usize
    requires short { length before.now + length after.now + length words.now ≤ 512 }
    ensures gives { GivesText (before.now ++ (decimal number ++ (after.now ++ (words.now
        ++ codes ".")))) text.old text.new result }
{
    let mut buffer = Buffer::new();
    put(
        &[before, digits(number, &mut buffer), after, words, "."],
        text,
    )
}

// What could stand at a place.
fn expected_text(expected: Expected) -> &'static str
    ensures text { result.now ≡ expected_text expected }
    ensures short { length result.now ≤ 128 }
{
    expected.as_str()
}

// Both readings of three expressions with two operators between them, of which this is the second.
fn readings_text(operator: Operator) -> &'static str
    ensures text { result.now ≡ readings_text operator }
    ensures short { length result.now ≤ 128 }
{
    match operator {
        Operator::And => "`(a or b) and c` or `a or (b and c)`",
        Operator::Or => "`(a and b) or c` or `a and (b or c)`",
    }
}
