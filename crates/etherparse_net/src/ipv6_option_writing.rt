//! Options of IPv6 that are written.

ghost use Rattle.std.specs.Prelude.{ℕ, List, [], ◌≡◌, ◌+◌, ◌≤◌, ◌∷◌, ◌++◌, Ok, OnErr};
ghost use Rattle.std.specs.Prelude.{OnOk, length};
ghost use Rattle.std.specs.Result.{result_map_both};
ghost use Rattle.etherparse_net.specs.Ipv6Options.{IsOnlyIpv6Listing, ListsIpv6Options};
ghost use Rattle.etherparse_net.specs.Ipv6OptionWriting.{AppendsIpv6Option, ipv6_option_bytes};
ghost use Rattle.etherparse_net.specs.Ipv6OptionWriting.{ipv6_option_max_data_len};

use crate::err::OptionWriteError;
use arrayvec::ArrayVec;

/// Appends an option to the options of a hop-by-hop or destination options header (RFC 8200 section
/// 4.2): its type, the length of its data and the data; or the type alone for Pad1 (0).
///
/// A header can have only 6 more bytes of options than a multiple of 8: pad them by Pad1 and PadN.
///
/// # Errors
///
/// In this order: `DataTooLong` if there are more than 255 bytes of data, or any for Pad1;
/// `NotEnoughSpace` if there is no room for the option. The options are then unchanged.
///
/// # Example
///
/// ```
/// // A router alert (RFC 2711), and a PadN of two bytes.
/// let mut options: ArrayVec<u8, 6> = ArrayVec::new();
/// append_ipv6_option(&mut options, 5, &[0, 0])?;
/// append_ipv6_option(&mut options, 1, &[])?;
/// assert!(rt; options.as_slice() == [5, 2, 0, 0, 1, 0].as_slice());
/// let refused = append_ipv6_option(&mut options, 0, &[]);
/// assert!(rt; refused == Err(OptionWriteError::NotEnoughSpace(7)));
/// ```
pub fn append_ipv6_option<const N: usize>(
    options: &mut ArrayVec<u8, N>,
    option_type: u8,
    option_data: &[u8],
) -> Result<(), OptionWriteError>
    ensures appends { AppendsIpv6Option N option_type option_data.now options.old.items
        (result_map_both (λ _. options.new.items) (λ e. e) result) }
    ensures unchanged { OnErr result (options.new ≡ options.old) }

    // What is written is read again: the options before it, and this one.
    ensures read_again { (before : List (List ℕ)) →
        ListsIpv6Options options.old.items before (Ok []) →
        OnOk result (IsOnlyIpv6Listing options.new.items
        (before ++ ipv6_option_bytes option_type option_data.now ∷ []) (Ok [])) }
{
    if option_data.len() > max_data_len(option_type) {
        return Err(OptionWriteError::DataTooLong(option_data.len()));
    }
    let len = options.len() + option_len(option_type, option_data);
    if len > N {
        return Err(OptionWriteError::NotEnoughSpace(len));
    }
    push_option(options, option_type, option_data);
    Ok(())
}

// The greatest length of the data of an option.
fn max_data_len(option_type: u8) -> usize
    ensures value { result ≡ ipv6_option_max_data_len option_type }
{
    if option_type == 0 { 0 } else { 255 }
}

// The length of an option.
fn option_len(option_type: u8, option_data: &[u8]) -> usize
    requires { length option_data.now ≤ 255 }
    ensures value { result ≡ length (ipv6_option_bytes option_type option_data.now) }
{
    if option_type == 0 {
        1
    } else {
        2 + option_data.len()
    }
}

// Appends an option for which there is room.
fn push_option<const N: usize>(options: &mut ArrayVec<u8, N>, option_type: u8, option_data: &[u8])
    requires fits { length option_data.now ≤ 255 }
    requires room { length options.old.items
        + length (ipv6_option_bytes option_type option_data.now) ≤ N }
    ensures items { options.new.items
        ≡ options.old.items ++ ipv6_option_bytes option_type option_data.now }
{
    options.push(option_type);
    if option_type == 0 {
        return;
    }
    options.push(option_data.len() as u8);
    options.try_extend_from_slice(option_data).unwrap();
}
