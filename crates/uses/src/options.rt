//! A packet dump: the options of an IPv4 header one by one.

ghost use Rattle.std.specs.Prelude.{◌<◌, ◌≤◌, ◌≢◌, IfErr, IfNone, IfOk, IfSome, length, map};
ghost use Rattle.std.specs.Prelude.{slice_index, take};
ghost use Rattle.uses.specs.Options.{BreaksAt, EndsAfter, IsBroken, IsOption};

use arrayvec::ArrayVec;

/// The options, each with its type and length, up to the end of the list (RFC 791 section 3.1);
/// `Err` is the place of the first one whose length is missing or wrong.
pub fn listed(options: &[u8]) -> Result<ArrayVec<&[u8], 40>, usize>
    requires fits { length options.now ≤ 40 }
    ensures listed { IfOk result (λ parts. EndsAfter options.now
        (map (λ part. part.now) parts.items)) }
    ensures broken { IfErr result (BreaksAt options.now) }
{
    let mut parts = ArrayVec::new();
    let mut rest = options;
    'options: loop {
        if rest.is_empty() || rest[0] == 0 {
            return Ok(parts);
        }
        let Some(len) = option_len(rest) else {
            return Err(options.len() - rest.len());
        };
        parts.push(&rest[..len]);
        rest = &rest[len..];
    }
}

// The length of the option at the front.
fn option_len(rest: &[u8]) -> Option<usize>
    requires some { 0 < length rest.now }
    requires not_end { slice_index rest.now 0 ≢ 0 }
    ensures some { IfSome result (λ len. 0 < len) }
    ensures within { IfSome result (λ len. len ≤ length rest.now) }
    ensures option { IfSome result (λ len. IsOption (take len rest.now)) }
    ensures none { IfNone result (IsBroken rest.now) }
{
    if rest[0] == 1 {
        return Some(1);
    }
    if rest.len() < 2 || rest[1] < 2 || rest.len() < usize::from(rest[1]) {
        return None;
    }
    Some(usize::from(rest[1]))
}
