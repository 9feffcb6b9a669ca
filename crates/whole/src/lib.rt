#![tactic(auto)]

pub mod codes;

ghost use Rattle.std.specs.Prelude.{◌≡◌, map, ◌+◌, ◌<◌, ◌^◌, pos, nat_abs, ◌≤ℤ◌, length};
ghost use Rattle.std.specs.Int.{w64};
ghost use Rattle.std.proofs.Common.{SFits};
ghost use Rattle.whole.specs.Numbers.{min_ℤ, max_ℤ, abs_ℤ, divided_down, divided_up};
ghost use Rattle.whole.specs.Bounds.{between};
ghost use Rattle.whole.specs.Parts.{number};
ghost use Rattle.whole.specs.Marks.{check_from, all_zero};

pub use codes::{Refusal, code};

// The arithmetic of i64 that the engine's code shares. Nothing here wraps: where an answer could leave the range, the caller
// shows that it does not. A `requires` of this crate is met by its callers inside the engine.

// Whether x lies from low to high.
// Two comparisons: `(low..=high).contains(&x)` goes through a range, and is no plainer in the one function that all others call.
pub fn lies_between(low: i64, x: i64, high: i64) -> bool
    ensures { result ≡ between low x high }
{
    low <= x && x <= high
}

// Whether number k lies from low to high.
pub fn number_between(numbers: &[i64], k: usize, low: i64, high: i64) -> bool
    requires { k < length numbers.now }
    ensures { result ≡ between low (number numbers.now k) high }
{
    lies_between(low, numbers[k], high)
}

// Whether number k is x. The definitions ask equality as `between x y x` (specs/Bounds `equal`), so the contract does.
#[tactic(auto, using(crate::proofs::Bounds::same_bits))]
pub fn number_is(numbers: &[i64], k: usize, x: i64) -> bool
    requires { k < length numbers.now }
    ensures { result ≡ between x (number numbers.now k) x }
{
    numbers[k] == x
}

// Whether every number is zero. It does not stop at the first that is not, so that the compiler may look at several together.
pub fn all_zero(numbers: &[i64]) -> bool
    ensures { result ≡ all_zero numbers.now }
{
    let mut zero = true;
    for x in numbers {
        zero &= *x == 0;
    }
    zero
}

// Ok where every number lies from low to high, else the place of the first that does not; the first number stands at place `at`.
pub fn check_between(at: usize, numbers: &[i64], low: i64, high: i64) -> Result<(), usize>
    requires { at + length numbers.now < 2 ^ 64 }
    ensures { result ≡ check_from at (map (λ x. between low x high) numbers.now) }
{
    for (k, x) in numbers.iter().enumerate() {
        if !lies_between(low, *x, high) {
            return Err(at + k);
        }
    }
    Ok(())
}

// `min`, `max` and `abs` of the library promise its own definitions; these three promise those of specs/Numbers, by which the figures are defined.

// The lesser of two numbers.
#[tactic(auto, using(crate::proofs::Numbers::min_same))]
pub fn lesser(x: i64, y: i64) -> i64
    ensures { (result ≡ min_ℤ x y) × SFits w64 result }
{
    x.min(y)
}

// The greater of two numbers.
#[tactic(auto, using(crate::proofs::Numbers::max_same))]
pub fn greater(x: i64, y: i64) -> i64
    ensures { (result ≡ max_ℤ x y) × SFits w64 result }
{
    x.max(y)
}

// The size of a number.
#[tactic(auto, using(crate::proofs::Numbers::abs_same))]
pub fn size(x: i64) -> i64
    requires { nat_abs x < 2 ^ 63 }
    ensures { (result ≡ abs_ℤ x) × SFits w64 result }
{
    x.abs()
}

// The quotient of a number from 0 up, rounded down.
pub fn divided_down(x: i64, by: i64) -> i64
    requires { (pos 0 ≤ℤ x) × (pos 1 ≤ℤ by) }
    ensures { (result ≡ divided_down x (nat_abs by)) × SFits w64 result }
{
    x / by
}

// The quotient of a number from 0 up, rounded up: the library's `div_ceil` is of unsigned numbers alone.
pub fn divided_up(x: i64, by: i64) -> i64
    requires { (pos 0 ≤ℤ x) × (pos 1 ≤ℤ by) × (nat_abs x + nat_abs by < 2 ^ 63) }
    ensures { (result ≡ divided_up x (nat_abs by)) × SFits w64 result }
{
    divided_down(x + (by - 1), by)
}
