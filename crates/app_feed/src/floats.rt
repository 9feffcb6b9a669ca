ghost use Rattle.std.specs.Prelude.{◌≡◌, ◌<◌, ◌^◌, nat_abs};
ghost use Rattle.std.specs.Float.{binary64};
ghost use Rattle.std.specs.Float.Ieee.{to_bits};
ghost use Rattle.figures.specs.Ranges.{Below2^53};
ghost use Rattle.app_feed.specs.Floats.{float, floats_of, bits_of, is_below, all_below, HasBits, AllHaveBits};

use figures::Figures;

// The five figures as floats, and their bits.

// A report's figures in kopecks, each exactly the whole number.
pub type Floats = Figures<f64>;

// Numbers that carry a record's bits.
pub(crate) const COUNT: usize = 5;

// The greatest number below 2^53.
const MOST_EXACT: i64 = 9007199254740991;

// Whether a figure is below 2^53 in size.
fn is_below(kopecks: i64) -> bool
    ensures { result ≡ is_below kopecks }
{
    whole::lies_between(-MOST_EXACT, kopecks, MOST_EXACT)
}

// Whether all five are.
pub(crate) fn all_below(f: Figures<i64>) -> bool
    ensures { result ≡ all_below f }
{
    f.five().iter().all(|kopecks| is_below(*kopecks))
}

// One figure: the cast loses nothing.
// `f64::from` takes no i64, since not every one is exact; the `requires` says that this one is.
pub(crate) fn exact(kopecks: i64) -> f64
    requires { nat_abs kopecks < 2 ^ 53 }
    ensures { result ≡ float kopecks }
{
    kopecks as f64
}

// The five figures. It asks that they are below 2^53, so it is no `From`, which takes every record.
pub(crate) fn floats_of(f: Figures<i64>) -> Floats
    requires { Below2^53 f }
    ensures { result ≡ floats_of f }
{
    f.map(exact)
}

// Their bits, in report order.
pub(crate) fn bits_of(x: Floats) -> [u64; COUNT]
    requires { AllHaveBits x }
    ensures { result ≡ bits_of x }
{
    let bits = |x: f64| -> u64
        requires { HasBits x }
        ensures { result ≡ to_bits binary64 x }
    { f64::to_bits(x) };
    x.map(bits).five()
}
