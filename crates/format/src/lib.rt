// One field of a format: the varint at a place, within limits.
#![tactic(auto)]

ghost use Rattle.std.specs.Prelude.{◌≡◌, ◌≤◌, IfOk};
ghost use Rattle.format.specs.Reading.{fault_of, field_at};

use varint::{Parsed, VarintError};

// What is wrong with a field, or behind the last one.
#[derive(Clone, Copy, Debug, PartialEq, Eq)]
pub enum Fault {
    // The bytes end inside the field, and further bytes could bring it within its limits.
    Cut,
    // The bytes end inside the field, and further bytes could only bring it above its limits.
    CutOutside,
    // The field is no varint: too long or too large, whatever bytes follow.
    Malformed,
    // The field's value is outside its limits.
    Outside,
    // Bytes follow the last field. Of a single field never.
    Spare,
}

// What is wrong, and the first byte of the field that fails.
#[derive(Clone, Copy, Debug, PartialEq, Eq)]
pub struct Failure {
    pub fault: Fault,
    pub at: usize,
}

// What is wrong with a field of at most `high` whose varint is not read.
fn fault_of(error: VarintError, high: u32) -> Fault
    ensures { result ≡ fault_of high error }
{
    match error {
        VarintError::Short { least } => {
            if high < least {
                return Fault::CutOutside;
            }
            Fault::Cut
        }
        VarintError::Malformed => Fault::Malformed,
    }
}

// The varint at `at`, which is to be from `low` to `high`.
#[tactic(auto, unfolding(crate::specs::Reading::field_at))]
pub fn read_field(s: &[u8], at: usize, low: u32, high: u32) -> Result<Parsed<u32>, Failure>
    ensures reads { result ≡ field_at low high s.now at }
    ensures within { IfOk result (λ r. (low ≤ r.value) × (r.value ≤ high)) }
{
    match varint::read(s, at) {
        Ok(field) => {
            if field.value < low || high < field.value {
                let fault = Fault::Outside;
                return Err(Failure { fault, at });
            }
            Ok(field)
        }
        Err(error) => {
            let fault = fault_of(error, high);
            Err(Failure { fault, at })
        }
    }
}
