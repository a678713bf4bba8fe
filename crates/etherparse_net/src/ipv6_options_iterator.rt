//! The options of an IPv6 header, one after another.

ghost use Rattle.std.specs.Prelude.{◌≡◌, ◌≢◌, ◌≤◌, ◌++◌, [], IfErr, IfOk, drop, length, ⊤};
ghost use Rattle.etherparse_net.specs.Ipv6Options.{RefusesIpv6Option, ipv6_option_required_len};

use crate::Ipv6OptionSlice;
use crate::bytes::bytes_from;
use crate::err::IncompleteOption;
use std::alloc::AllocError;

/// The options of a hop-by-hop or destination options header, one after another (RFC 8200 section
/// 4.2): Pad1, PadN and all others. They end with the bytes, or at an option that is cut off.
///
/// # Example
///
/// ```
/// // A router alert (RFC 2711), and a PadN of two bytes.
/// let header = Ipv6RawExtHeaderSlice::from_slice(&[58, 0, 5, 2, 0, 0, 1, 0])?;
/// let mut options = header.options();
/// let Some(Ok(alert)) = options.next() else {
///     return Err(Fail::from("no option"));
/// };
/// assert!(rt; alert.option_type() == 5 && options.offset == 4);
/// let Some(Ok(padding)) = options.next() else {
///     return Err(Fail::from("no option"));
/// };
/// assert!(rt; padding.is_padding() && options.next().is_none());
/// ```
#[derive(Debug, PartialEq, Eq, Drop)]
pub struct Ipv6OptionsIterator<'a> {
    /// The bytes of the options.
    pub options: &'a [u8],
    /// Where the next option begins in them. After an error, their length.
    pub offset: usize,
    // What every iterator keeps.
    pub ghost within: { offset ≤ length options.now },
}

impl<'a> Ipv6OptionsIterator<'a> {
    ghost use Rattle.std.specs.Prelude.{ℕ, List, [], ◌≡◌, ◌<◌, ◌∷◌, ◌++◌, IfErr, IfNone, IfOk};
    ghost use Rattle.std.specs.Prelude.{IfSome, Ok, Err, drop, length};
    ghost use Rattle.etherparse_net.specs.Ipv6Options.{BeginsWithIpv6Options, IsIpv6Option};
    ghost use Rattle.etherparse_net.specs.Ipv6Options.{EndsIpv6Options, IsOnlyIpv6Listing};
    ghost use Rattle.etherparse_net.specs.Ipv6Options.{CountsIpv6Options, RefusesIpv6Option};

    /// The options in some bytes: what a header has from byte 2 on.
    pub fn new(options: &'a [u8]) -> Ipv6OptionsIterator<'a>
        ensures options { result.options.now ≡ options.now }
        ensures at_front { result.offset ≡ 0 }
    {
        Ipv6OptionsIterator { options, offset: 0 }
    }

    /// The next option, or `None` after the last.
    ///
    /// # Errors
    ///
    /// An `IncompleteOption` if an option is cut off by the end of the bytes. What comes after that
    /// is `None`.
    pub fn next_option(&mut self) -> Option<Result<Ipv6OptionSlice<'a>, IncompleteOption>>
        ensures same_options { self.new.options.now ≡ self.old.options.now }
        ensures option { IfSome result (λ found. IfOk found (λ option. IsIpv6Option option.slice.now
            × (drop self.old.offset self.old.options.now
            ≡ option.slice.now ++ drop self.new.offset self.old.options.now))) }
        ensures further { IfSome result (λ found. self.old.offset < self.new.offset) }
        ensures refused { IfSome result (λ found. IfErr found (λ e. RefusesIpv6Option
            self.old.offset (drop self.old.offset self.old.options.now) e
            × (self.new.offset ≡ length self.old.options.now))) }
        ensures end { IfNone result (EndsIpv6Options (drop self.old.offset self.old.options.now)
            × (self.new.offset ≡ self.old.offset)) }

        // After some options from the front on, these go on, or the listing of all bytes ends.
        ensures goes_on { (options : List (List ℕ)) → BeginsWithIpv6Options self.old.options.now
            options (drop self.old.offset self.old.options.now) →
            IfSome result (λ found. IfOk found (λ option. BeginsWithIpv6Options
            self.old.options.now (options ++ option.slice.now ∷ [])
            (drop self.new.offset self.old.options.now))) }
        ensures ends { (options : List (List ℕ)) → BeginsWithIpv6Options self.old.options.now
            options (drop self.old.offset self.old.options.now) →
            IfNone result (IsOnlyIpv6Listing self.old.options.now options
            (Ok (drop self.old.offset self.old.options.now))) }
        ensures ends_refused { (options : List (List ℕ)) →
            BeginsWithIpv6Options self.old.options.now options
            (drop self.old.offset self.old.options.now) →
            IfSome result (λ found. IfErr found (λ e.
            IsOnlyIpv6Listing self.old.options.now options (Err e))) }
    {
        let rest = bytes_from(self.options, self.offset);
        if rest.is_empty() {
            return None;
        }
        match first_option(rest, self.offset) {
            Ok(option) => {
                self.offset += option.slice.len();
                Some(Ok(option))
            }
            Err(e) => {
                self.offset = self.options.len();
                Some(Err(e))
            }
        }
    }

    /// How many options some bytes have, if each is whole.
    ///
    /// # Errors
    ///
    /// An `IncompleteOption` if an option is cut off by the end of the bytes.
    ///
    /// # Example
    ///
    /// ```
    /// // A Pad1, a PadN and an option for experiments (RFC 4727).
    /// let count = Ipv6OptionsIterator::count_of(&[0, 1, 0, 0x1e, 1, 7]);
    /// assert!(rt; count == Ok(3));
    /// ```
    pub fn count_of(options: &[u8]) -> Result<usize, IncompleteOption>
        ensures counts { CountsIpv6Options options.now result }
    {
        let mut left = Ipv6OptionsIterator::new(options);
        let mut count = 0;
        'options: loop {
            match left.next_option() {
                Some(Ok(_)) => count += 1,
                Some(Err(e)) => return Err(e),
                None => return Ok(count),
            }
        }
    }
}

/// A clone goes on from the same place.
impl<'a> Clone for Ipv6OptionsIterator<'a> {
    ghost is_clone = { λ left copy. (copy.options.now ≡ left.options.now)
        × (copy.offset ≡ left.offset) };

    ghost is_infallible = { λ _. ⊤ };

    fn clone(&self) -> Result<Ipv6OptionsIterator<'a>, AllocError> {
        Ok(Ipv6OptionsIterator {
            options: self.options,
            offset: self.offset,
        })
    }
}

/// The options, as [`Ipv6OptionsIterator::next_option`] gives them.
impl<'a> Iterator for Ipv6OptionsIterator<'a> {
    type Item = Result<Ipv6OptionSlice<'a>, IncompleteOption>;

    ghost use Rattle.std.specs.Prelude.{◌≡◌, ◌-◌, length};
    ghost use Rattle.std.specs.Iterator.{at_most};
    ghost use Rattle.std.specs.Option.{option_map};
    ghost use Rattle.std.specs.Result.{result_map_both};
    ghost use Rattle.etherparse_net.specs.Ipv6Options.{GivesIpv6Option};

    ghost next_gives = { λ before found after. (after.options.now ≡ before.options.now)
        × GivesIpv6Option before.options.now before.offset
        (option_map (λ r. result_map_both (λ option. option.slice.now) (λ e. e) r) found)
        after.offset };

    ghost remaining = { λ left. at_most (length left.options.now - left.offset) };

    fn next(&mut self) -> Option<Result<Ipv6OptionSlice<'a>, IncompleteOption>> {
        self.next_option()
    }
}

// The option at the front of some bytes, which begin at an offset.
fn first_option(rest: &[u8], offset: usize) -> Result<Ipv6OptionSlice, IncompleteOption>
    requires { rest.now ≢ [] }
    ensures found { IfOk result (λ option. rest.now ≡ option.slice.now
        ++ drop (length option.slice.now) rest.now) }
    ensures fits { IfOk result (λ option. length option.slice.now ≤ length rest.now) }
    ensures refused { IfErr result (RefusesIpv6Option offset rest.now) }
{
    let required_len = required_len(rest);
    if rest.len() < required_len {
        return Err(IncompleteOption {
            option_type: rest[0],
            required_len,
            len: rest.len(),
            offset,
        });
    }
    Ok(Ipv6OptionSlice {
        slice: &rest[..required_len],
    })
}

// How many bytes the option at the front of some bytes requires.
fn required_len(rest: &[u8]) -> usize
    requires { rest.now ≢ [] }
    ensures value { result ≡ ipv6_option_required_len rest.now }
{
    if rest[0] == 0 {
        return 1;
    }
    if rest.len() < 2 {
        return 2;
    }
    2 + usize::from(rest[1])
}
