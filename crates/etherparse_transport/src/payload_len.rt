ghost use Rattle.std.specs.Prelude.{◌≡◌, ◌≤◌, ◌↔◌, IfErr, IsOk};

use etherparse::err::{ValueTooBigError, ValueType};

// Whether the length of a payload is at most the greatest that is allowed.
pub(crate) fn check_payload_len(
    actual: usize,
    max_allowed: usize,
    value_type: ValueType,
) -> Result<(), ValueTooBigError<usize>>
    ensures accepted { IsOk result ↔ (actual ≤ max_allowed) }
    ensures refused { IfErr result (λ e. e ≡ record {
      actual = actual;
      max_allowed = max_allowed;
      value_type = value_type;
    }) }
{
    if actual > max_allowed {
        return Err(ValueTooBigError {
            actual,
            max_allowed,
            value_type,
        });
    }
    Ok(())
}
