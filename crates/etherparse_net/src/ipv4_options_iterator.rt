//! The options of an IPv4 header, one after another.

ghost use Rattle.std.specs.Prelude.{◌≡◌, ◌≢◌, ◌≤◌, ◌++◌, IfErr, IfOk, drop, length, slice_index};
ghost use Rattle.std.specs.Prelude.{⊤};
ghost use Rattle.etherparse_net.specs.Ipv4Options.{HasLengthOctet, RefusesIpv4Option};
ghost use Rattle.etherparse_net.specs.Ipv4Options.{cut_off_error};

use crate::Ipv4OptionSlice;
use crate::bytes::bytes_from;
use crate::err::{IncompleteOption, Ipv4OptionError};
use std::alloc::AllocError;

/// The options of an IPv4 header, one after another (RFC 791 section 3.1). They end with the bytes,
/// at the type 0, or at what is no option.
///
/// # Example
///
/// ```
/// // No operation, a router alert (RFC 2113), and the end of the list.
/// let mut options = Ipv4OptionsIterator::new(&[1, 148, 4, 0, 0, 0, 0, 0]);
/// let Some(Ok(first)) = options.next() else {
///     return Err(Fail::from("no option"));
/// };
/// assert!(rt; first.option_type() == 1 && first.data().is_empty());
/// let Some(Ok(alert)) = options.next() else {
///     return Err(Fail::from("no option"));
/// };
/// assert!(rt; alert.option_type() == 148 && options.next().is_none());
/// ```
#[derive(Debug, PartialEq, Eq, Drop)]
pub struct Ipv4OptionsIterator<'a> {
    /// The bytes of the options.
    pub options: &'a [u8],
    /// Where the next option begins in them. After an error, their length.
    pub offset: usize,
    // What every iterator keeps.
    pub ghost within: { offset ≤ length options.now },
}

impl<'a> Ipv4OptionsIterator<'a> {
    ghost use Rattle.std.specs.Prelude.{ℕ, List, [], ◌≡◌, ◌<◌, ◌∷◌, ◌++◌, IfErr, IfNone, IfOk};
    ghost use Rattle.std.specs.Prelude.{IfSome, Ok, Err, drop, length};
    ghost use Rattle.etherparse_net.specs.Ipv4Options.{BeginsWithIpv4Options, IsIpv4Option};
    ghost use Rattle.etherparse_net.specs.Ipv4Options.{EndsIpv4Options, IsOnlyIpv4Listing};
    ghost use Rattle.etherparse_net.specs.Ipv4Options.{CountsIpv4Options, RefusesIpv4Option};

    /// The options in some bytes: what an IPv4 header has from byte 20 on, which
    /// `Ipv4HeaderSlice::options` gives, and `as_slice` of the field `options` of an `Ipv4Header`.
    pub fn new(options: &'a [u8]) -> Ipv4OptionsIterator<'a>
        ensures options { result.options.now ≡ options.now }
        ensures at_front { result.offset ≡ 0 }
    {
        Ipv4OptionsIterator { options, offset: 0 }
    }

    /// The next option, or `None` after the last.
    ///
    /// # Errors
    ///
    /// In this order: `Incomplete` if the byte with the length of an option is missing;
    /// `LengthBelowTwo` if the length is below 2; `Incomplete` if the option is cut off by the end of
    /// the bytes. What comes after that is `None`.
    pub fn next_option(&mut self) -> Option<Result<Ipv4OptionSlice<'a>, Ipv4OptionError>>
        ensures same_options { self.new.options.now ≡ self.old.options.now }
        ensures option { IfSome result (λ found. IfOk found (λ option. IsIpv4Option option.slice.now
            × (drop self.old.offset self.old.options.now
            ≡ option.slice.now ++ drop self.new.offset self.old.options.now))) }
        ensures further { IfSome result (λ found. self.old.offset < self.new.offset) }
        ensures refused { IfSome result (λ found. IfErr found (λ e. RefusesIpv4Option
            self.old.offset (drop self.old.offset self.old.options.now) e
            × (self.new.offset ≡ length self.old.options.now))) }
        ensures end { IfNone result (EndsIpv4Options (drop self.old.offset self.old.options.now)
            × (self.new.offset ≡ self.old.offset)) }

        // After some options from the front on, these go on, or the listing of all bytes ends.
        ensures goes_on { (options : List (List ℕ)) → BeginsWithIpv4Options self.old.options.now
            options (drop self.old.offset self.old.options.now) →
            IfSome result (λ found. IfOk found (λ option. BeginsWithIpv4Options
            self.old.options.now (options ++ option.slice.now ∷ [])
            (drop self.new.offset self.old.options.now))) }
        ensures ends { (options : List (List ℕ)) → BeginsWithIpv4Options self.old.options.now
            options (drop self.old.offset self.old.options.now) →
            IfNone result (IsOnlyIpv4Listing self.old.options.now options
            (Ok (drop self.old.offset self.old.options.now))) }
        ensures ends_refused { (options : List (List ℕ)) →
            BeginsWithIpv4Options self.old.options.now options
            (drop self.old.offset self.old.options.now) →
            IfSome result (λ found. IfErr found (λ e.
            IsOnlyIpv4Listing self.old.options.now options (Err e))) }
    {
        let rest = bytes_from(self.options, self.offset);
        if rest.is_empty() || rest[0] == 0 {
            return None;
        }
        match first_option(rest, self.offset) {
            Ok(option) => {
                self.offset += option.slice.len();
                Some(Ok(option))
            }
            Err(e) => {
                self.offset = self.options.len();
                Some(Err(e))
            }
        }
    }

    /// How many options some bytes have, if each is whole.
    ///
    /// # Errors
    ///
    /// Those of [`Ipv4OptionsIterator::next_option`], the first of them.
    ///
    /// # Example
    ///
    /// ```
    /// // No operation, a router alert (RFC 2113), and the end of the list.
    /// let count = Ipv4OptionsIterator::count_of(&[1, 148, 4, 0, 0, 0, 0, 0]);
    /// assert!(rt; count == Ok(2));
    /// ```
    pub fn count_of(options: &[u8]) -> Result<usize, Ipv4OptionError>
        ensures counts { CountsIpv4Options options.now result }
    {
        let mut left = Ipv4OptionsIterator::new(options);
        let mut count = 0;
        'options: loop {
            match left.next_option() {
                Some(Ok(_)) => count += 1,
                Some(Err(e)) => return Err(e),
                None => return Ok(count),
            }
        }
    }
}

/// A clone goes on from the same place.
impl<'a> Clone for Ipv4OptionsIterator<'a> {
    ghost is_clone = { λ left copy. (copy.options.now ≡ left.options.now)
        × (copy.offset ≡ left.offset) };

    ghost is_infallible = { λ _. ⊤ };

    fn clone(&self) -> Result<Ipv4OptionsIterator<'a>, AllocError> {
        Ok(Ipv4OptionsIterator {
            options: self.options,
            offset: self.offset,
        })
    }
}

/// The options, as [`Ipv4OptionsIterator::next_option`] gives them.
impl<'a> Iterator for Ipv4OptionsIterator<'a> {
    type Item = Result<Ipv4OptionSlice<'a>, Ipv4OptionError>;

    ghost use Rattle.std.specs.Prelude.{◌≡◌, ◌-◌, length};
    ghost use Rattle.std.specs.Iterator.{at_most};
    ghost use Rattle.std.specs.Option.{option_map};
    ghost use Rattle.std.specs.Result.{result_map_both};
    ghost use Rattle.etherparse_net.specs.Ipv4Options.{GivesIpv4Option};

    ghost next_gives = { λ before found after. (after.options.now ≡ before.options.now)
        × GivesIpv4Option before.options.now before.offset
        (option_map (λ r. result_map_both (λ option. option.slice.now) (λ e. e) r) found)
        after.offset };

    ghost remaining = { λ left. at_most (length left.options.now - left.offset) };

    fn next(&mut self) -> Option<Result<Ipv4OptionSlice<'a>, Ipv4OptionError>> {
        self.next_option()
    }
}

// The option at the front of some bytes, which begin at an offset.
fn first_option(rest: &[u8], offset: usize) -> Result<Ipv4OptionSlice, Ipv4OptionError>
    requires some { 1 ≤ length rest.now }
    requires is_option { slice_index rest.now 0 ≢ 0 }
    ensures found { IfOk result (λ option. rest.now ≡ option.slice.now
        ++ drop (length option.slice.now) rest.now) }
    ensures fits { IfOk result (λ option. length option.slice.now ≤ length rest.now) }
    ensures refused { IfErr result (RefusesIpv4Option offset rest.now) }
{
    if rest[0] == 1 {
        return Ok(Ipv4OptionSlice { slice: &rest[..1] });
    }
    if rest.len() < 2 {
        return Err(cut_off(rest, offset, 2));
    }
    if rest[1] < 2 {
        return Err(Ipv4OptionError::LengthBelowTwo {
            option_type: rest[0],
            option_length: rest[1],
            offset,
        });
    }
    let len = usize::from(rest[1]);
    if rest.len() < len {
        return Err(cut_off(rest, offset, len));
    }
    Ok(Ipv4OptionSlice {
        slice: &rest[..len],
    })
}

// The error of the option at the front of some bytes, which begin at an offset.
fn cut_off(rest: &[u8], offset: usize, required_len: usize) -> Ipv4OptionError
    requires { 1 ≤ length rest.now }
    ensures value { result
        ≡ Ipv4OptionError.Incomplete (cut_off_error offset rest.now required_len) }
{
    Ipv4OptionError::Incomplete(IncompleteOption {
        option_type: rest[0],
        required_len,
        len: rest.len(),
        offset,
    })
}
