//! Bytes at the front of an array that has room for the longest.

ghost use Rattle.std.specs.Prelude.{ℕ, ◌≡◌, ◌<◌, ◌≤◌, ◌+◌, ◌-◌, ◌%◌, ◌++◌};
ghost use Rattle.std.specs.Prelude.{length, replicate, slice_index};
ghost use Rattle.etherparse.specs.Ipv4Options.{IsOptionsLen};

/// These bytes, and 0 in the rest of the array.
#[inline(always)]
pub(crate) fn filled<const N: usize>(bytes: &[u8]) -> [u8; N]
    requires { length bytes.now ≤ N }
    ensures value { result ≡ bytes.now ++ replicate (N - length bytes.now) 0 }
{
    let mut room = [0; N];
    room[..bytes.len()].copy_from_slice(bytes);
    room
}

/// The same for options, in words of 4 bytes, so that no branch depends on their number.
#[inline(always)]
pub(crate) fn filled_by_words(options: &[u8]) -> [u8; 40]
    requires options_len { IsOptionsLen (length options.now) }
    requires some { 0 < length options.now }
    ensures value { result ≡ options.now ++ replicate (40 - length options.now) 0 }
{
    let mut room = [0; 40];
    for word in 0..10 {
        room[4 * word..4 * word + 4].copy_from_slice(&word_at(options, 4 * word));
    }
    room
}

// The word that starts at this index; after the last word 0, and the last one is read again.
#[inline(always)]
fn word_at(options: &[u8], start: usize) -> [u8; 4]
    requires options_len { IsOptionsLen (length options.now) }
    requires some { 0 < length options.now }
    requires in_words { start % 4 ≡ 0 }
    ensures value { (i : ℕ) → i < 4 → slice_index result i ≡ slice_index options.now (start + i) }
{
    let last = options.len() - 4;
    let place = start.min(last);
    let word = *options[place..place + 4].first_chunk::<4>().unwrap();
    if start <= last { word } else { [0; 4] }
}
