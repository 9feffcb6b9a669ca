ghost use Rattle.std.specs.Prelude.{◌≡◌, map, true};
ghost use Rattle.whole.specs.Marks.{all_true};
ghost use Rattle.app_feed.specs.Floats.{floats_at};
ghost use Rattle.app_feed.specs.Received.{is_pattern, received_as, received_of};

use crate::floats;
use crate::floats::Floats;
use figures::Figures;
use whole::Refusal;

// Five numbers read back as a record of floats.

// The place of the sign, and the pattern of an infinity: without its sign a NaN's pattern is above that.
const SIGN: u64 = 0x8000_0000_0000_0000;

const INFINITY: u64 = 0x7ff0_0000_0000_0000;

// Whether a number is the pattern of a float that is no NaN.
// The pattern is asked and not the float: the kit's `from_bits` requires that there is no NaN, so `is_nan` would come too late.
fn is_pattern(bits: u64) -> bool
    ensures { result ≡ is_pattern bits }
{
    bits % SIGN <= INFINITY
}

// Whether all of them are.
fn all_patterns(bits: &[u64]) -> bool
    ensures { result ≡ all_true (map is_pattern bits.now) }
{
    bits.iter().all(|bits| is_pattern(*bits))
}

// The floats of five patterns. Only here do numbers in a report's order become figures by name, so a loop or a helper would say no less.
fn floats_at(bits: &[u64; floats::COUNT]) -> Floats
    requires { all_true (map is_pattern bits.now) ≡ true }
    ensures { result ≡ floats_at bits.now }
{
    Figures {
        valuation: f64::from_bits(bits[0]),
        market: f64::from_bits(bits[1]),
        interest: f64::from_bits(bits[2]),
        discount: f64::from_bits(bits[3]),
        limit: f64::from_bits(bits[4]),
    }
}

// Read five numbers back into a record.
pub fn receive(bits: &[u64]) -> Result<Floats, Refusal>
    ensures { received_as result ≡ received_of bits.now }
{
    let bits: &[u64; floats::COUNT] = bits.as_array().ok_or(Refusal::WrongLength)?;
    if !all_patterns(bits) {
        return Err(Refusal::OutOfBounds);
    }
    Ok(floats_at(bits))
}
