//! Filters from text.

ghost use Rattle.std.specs.Prelude.{◌≡◌, ◌≤◌, IfErr, IfOk, IsOkAnd, OnOk, Some, length};
ghost use Rattle.packet_filter.specs.Language.{IsText, Refuses, filter_error_place};
ghost use Rattle.packet_filter.specs.Language.{filter_error_text, readings_text};
ghost use Rattle.packet_filter.specs.Meaning.{Expression};
ghost use Rattle.packet_filter.specs.Private.Machine.{refusal};
ghost use Rattle.packet_filter.specs.Program.{expression_of};
ghost use Rattle.packet_filter.specs.Text.{words_of};

use crate::expected::Expected;
use crate::expression::Operator;
use crate::filter::Filter;
use crate::machine::Machine;
use crate::text::{first_word, token_of};
use crate::token::Token;
use std::error::Error;
use std::fmt;

/// Why a text is no filter. Places are where a word begins, in bytes from the start of the text:
/// no expression begins with the words up to there and that word, or it is one too many.
#[derive(Clone, Copy, Debug, PartialEq, Eq)]
pub enum FilterError {
    /// A word that cannot stand where it stands.
    Unexpected {
        /// Where the word begins.
        place: usize,
        /// What could stand there.
        expected: Expected,
    },
    /// An operator where the other could stand, since that stands before it on the same level:
    /// parentheses have to say which comes first.
    Mixed {
        /// Where the operator begins.
        place: usize,
        /// The operator at that place.
        operator: Operator,
    },
    /// A word of pcap-filter(7) that is not part of the language.
    Unsupported {
        /// Where the word begins.
        place: usize,
    },
    /// The text ends within an expression: more words have to follow.
    Incomplete {
        /// What could be the next.
        expected: Expected,
    },
    /// The text has more than [`Filter::MAX_WORDS`] words. No word up to there is unexpected.
    TooLong {
        /// Where the first word beyond them begins.
        place: usize,
    },
}

impl FilterError {
    /// Where the word begins that the refusal is about, in bytes; none: the end of the text.
    ///
    /// # Example
    ///
    /// ```
    /// let refused = Filter::from_text(b"tcp prot 80");
    /// assert!(rt; refused.is_err_and(|error| error.place() == Some(4)));
    /// ```
    pub fn place(&self) -> Option<usize>
        ensures value { result ≡ filter_error_place self.now }
    {
        match self {
            FilterError::Unexpected { place, .. }
            | FilterError::Mixed { place, .. }
            | FilterError::Unsupported { place }
            | FilterError::TooLong { place } => Some(*place),
            FilterError::Incomplete { .. } => None,
        }
    }
}

impl fmt::Display for FilterError {
    ghost output = { λ error. Some (filter_error_text error) };

    fn fmt<W: fmt::Write>(&self, f: &mut fmt::Formatter<W>) -> fmt::Result {
        match *self {
            FilterError::Unexpected { place, expected } => write!(
                f,
                "Expression Error: The word at byte {place} cannot stand there: expected {expected}."
            ),
            FilterError::Mixed { place, operator } => {
                let readings = Readings(operator);
                write!(
                    f,
                    "Expression Error: `and` and `or` stand together at byte {place}: parentheses have to say which comes first, as in {readings}."
                )
            }
            FilterError::Unsupported { place } => write!(
                f,
                "Expression Error: The word of pcap-filter(7) at byte {place} is not part of the language."
            ),
            FilterError::Incomplete { expected } => write!(
                f,
                "Expression Error: It ends where more words have to follow: expected {expected}."
            ),
            FilterError::TooLong { place } => write!(
                f,
                "Expression Error: It has more than 64 words: the first beyond them is at byte {place}."
            ),
        }
    }
}

impl Error for FilterError {}

// Both readings of three expressions with two operators between them, of which this is the second.
#[derive(Clone, Copy)]
struct Readings(Operator);

impl fmt::Display for Readings {
    ghost output = { λ readings. Some (readings_text readings.0) };

    fn fmt<W: fmt::Write>(&self, f: &mut fmt::Formatter<W>) -> fmt::Result {
        f.write_str(match self.0 {
            Operator::And => "`(a or b) and c` or `a or (b and c)`",
            Operator::Or => "`(a and b) or c` or `a and (b or c)`",
        })
    }
}

// Why a word cannot stand at a place, by what it says, by the operator before it on its level, and
// by what can stand there.
fn refusal(place: usize, token: Token, before: Option<Operator>, expected: Expected) -> FilterError
    ensures value { result ≡ refusal place token before expected }
{
    match (token, before) {
        (Token::Foreign, _) => FilterError::Unsupported { place },
        (Token::Operator(operator), Some(_)) => FilterError::Mixed { place, operator },
        _ => FilterError::Unexpected { place, expected },
    }
}

const _: () = prove!(Filter::MAX_WORDS == 64);

impl Filter {
    /// The number of words that an expression can have.
    pub const MAX_WORDS: usize = 64;

    /// The filter that a text is, in the words of pcap-filter(7): the language of the crate's page.
    ///
    /// # Errors
    ///
    /// `Unexpected`, `Mixed` or `Unsupported` if one of the first 64 words cannot stand where it
    /// stands, for the first such word; or else `TooLong` if there are more than 64; or else
    /// `Incomplete` if more have to follow.
    ///
    /// # Example
    ///
    /// ```
    /// assert!(rt; Filter::from_text(b"tcp port 80 or udp port 53").is_ok());
    /// // `prot` is no word of the language.
    /// let refused = Filter::from_text(b"tcp prot 80");
    /// let expected = FilterError::Unexpected {
    ///     place: 4,
    ///     expected: Expected::AfterTransport,
    /// };
    /// assert!(rt; refused.is_err_and(|error| error == expected));
    /// // `)` is missing.
    /// let refused = Filter::from_text(b"not (tcp or udp");
    /// assert!(rt; matches!(refused, Err(FilterError::Incomplete { .. })));
    /// // Parentheses have to say which of `and` and `or` comes first.
    /// let refused = Filter::from_text(b"udp or tcp and port 22");
    /// assert!(rt; matches!(refused, Err(FilterError::Mixed { place: 11, .. })));
    /// // The mask lacks the last bit of the address.
    /// let refused = Filter::from_text(b"net 10.0.0.1 mask 255.0.0.0");
    /// assert!(rt; matches!(refused, Err(FilterError::Unexpected { place: 18, .. })));
    /// // Labels of MPLS are in pcap-filter(7), and not here.
    /// let refused = Filter::from_text(b"ip or mpls");
    /// assert!(rt; matches!(refused, Err(FilterError::Unsupported { place: 6 })));
    /// ```
    pub fn from_text(text: &[u8]) -> Result<Filter, FilterError>
        ensures read { IfOk result (λ filter. IsText text.now (expression_of filter)) }
        ensures few { OnOk result (length (words_of text.now) ≤ 64) }
        ensures refused { IfErr result (Refuses text.now) }
        ensures accepted { (e : Expression) → IsText text.now e → length (words_of text.now) ≤ 64 →
            IsOkAnd result (λ filter. expression_of filter ≡ e) }
    {
        let mut machine = Machine::new();
        let mut rest = text;
        let mut count = 0;
        'words: while let Some((word, after)) = first_word(rest) {
            let place = text.len() - after.len() - word.len();
            if count == Filter::MAX_WORDS {
                return Err(FilterError::TooLong { place });
            }
            let token = token_of(word);
            let qualifiers = machine.qualifiers();
            if !machine.step(token) {
                let expected = qualifiers.unwrap_or(machine.expected());
                return Err(refusal(place, token, machine.operator(), expected));
            }
            rest = after;
            count += 1;
        }
        if machine.finish() {
            Ok(Filter::of_steps(machine.into_steps()))
        } else {
            Err(FilterError::Incomplete {
                expected: machine.expected(),
            })
        }
    }
}
