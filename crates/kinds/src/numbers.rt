// What thresholds and remainders share: the range of their coefficients, and the fields in a state number.
ghost use Rattle.std.specs.Prelude.{◌≡◌, ◌^◌, ◌<◌, cond, Some, None, nat_lt};
ghost use Rattle.protocol.specs.Sums.{packed, value_part, lead_part, bit_part};
ghost use Rattle.kinds.specs.Ranges.{coefficients_fit};

use protocol::Fields;

// How far a coefficient is from 0 at most.
const MAX_COEFFICIENT: u32 = 99;

// Whether each coefficient is one of -99 to 99.
pub(crate) fn coefficients_fit(coefficients: &[i32]) -> bool
    ensures { result ≡ coefficients_fit coefficients.now }
{
    coefficients
        .iter()
        .all(|k| k.unsigned_abs() <= MAX_COEFFICIENT)
}

// Whether a tag in this state leads.
pub(crate) fn leads(state: u32) -> bool
    ensures { result ≡ lead_part state }
{
    state / 2 % 2 == 1
}

// The bit of a tag in this state.
pub(crate) fn bit_of(state: u32) -> bool
    ensures { result ≡ bit_part state }
{
    state % 2 == 1
}

// The number of the value of a tag in this state.
pub(crate) fn value_of(state: u32) -> u32
    ensures { result ≡ value_part state }
{
    state / 4
}

// The state number of fields whose value is its own number.
pub(crate) fn pack(fields: Fields<u32>) -> u32
    requires { fields.value < 2 ^ 29 }
    ensures { result ≡ packed fields.value fields.lead fields.bit }
{
    fields.value * 4 + 2 * u32::from(fields.lead) + u32::from(fields.bit)
}

// The fields in one of so many state numbers, the value as its number; none for an unknown one.
pub(crate) fn unpack(state: u32, size: u64) -> Option<Fields<u32>>
    ensures { result ≡ cond (nat_lt state size) (Some (record { lead = lead_part state; bit = bit_part state; value = value_part state })) None }
{
    (u64::from(state) < size).then(|| Fields {
        lead: leads(state),
        bit: bit_of(state),
        value: value_of(state),
    })
}
