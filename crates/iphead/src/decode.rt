ghost use Rattle.std.specs.Prelude.{◌≡◌, ◌+◌, ◌*◌, ◌%◌, ◌≤◌, ◌↔◌, length, drop, take};
ghost use Rattle.std.specs.Prelude.{IsSome, IfSome, Ok};
ghost use Rattle.std.specs.List.{AllPass};
ghost use Rattle.hex.specs.Hex.{decode_of, is_hex_digit};

/// The bytes that hex digits of either case stand for, the upper half of each byte first. They are
/// written to the front of `out`, and the rest of `out` stays as it was. The result is their
/// number. It is `None`, and nothing is said about `out`, if the number of digits is odd or one of
/// them is not a hex digit.
pub fn decode_input(digits: &[u8], out: &mut [u8; 2048]) -> Option<usize>
    requires { length digits.now ≤ 4096 }
    ensures found { IsSome result
        ↔ ((length digits.now % 2 ≡ 0) × AllPass is_hex_digit digits.now) }
    ensures value { IfSome result (λ n. (2 * n ≡ length digits.now)
        × (decode_of digits.now ≡ Ok (take n out.new))) }
    ensures beyond { IfSome result (λ n. drop n out.new ≡ drop n out.old) }
{
    let n = digits.len() / 2;
    hex::decode_to_slice(digits, &mut out[..n]).ok()?;
    Some(n)
}

#[cfg(test)]
mod tests;
