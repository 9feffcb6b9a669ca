ghost use Rattle.std.specs.Prelude.{◌≡◌};
ghost use Rattle.figures.specs.Ranges.{Below2^53};
ghost use Rattle.app_feed.specs.Gauge.{gauge_of, gauge_number, gauge_shown, Balanced};

use crate::floats;

// The gauge of the app's first screen.

// Nothing to show; over, by a shortfall in kopecks; or used, a share of the valuation from 0 to 1.
#[derive(Clone, Copy, Debug, PartialEq)]
pub enum Gauge {
    Empty,
    Over(f64),
    Used(f64),
}

// The three as numbers, as include/single_limit.h has them for C.
pub const EMPTY: u8 = 0;

pub const OVER: u8 = 1;

pub const USED: u8 = 2;

// A valuation of zero or less is asked first: there is nothing to divide by. Both operands of the division are exact, so it is the one rounding.
#[tactic(auto, using(crate::proofs::Gauges::shows_nothing, crate::proofs::Gauges::used_small))]
pub(crate) fn gauge_of(f: figures::Figures<i64>) -> Gauge
    requires { Below2^53 f × Balanced f }
    ensures { result ≡ gauge_of f }
{
    let valuation = f.valuation;
    let limit = f.limit;
    if valuation <= 0 {
        return Gauge::Empty;
    }
    if limit < 0 {
        return Gauge::Over(floats::exact(-limit));
    }
    let used = f.market + f.interest - f.discount;
    Gauge::Used(floats::exact(used) / floats::exact(valuation))
}

// Which of the three.
impl From<Gauge> for u8 {
    ghost from_gives = { λ gauge number. number ≡ gauge_number gauge };

    fn from(gauge: Gauge) -> u8 {
        match gauge {
            Gauge::Empty => EMPTY,
            Gauge::Over(_) => OVER,
            Gauge::Used(_) => USED,
        }
    }
}

impl Gauge {
    // What it carries; zero where it is empty.
    pub fn shown(self) -> f64
        ensures { result ≡ gauge_shown self }
    {
        match self {
            Gauge::Empty => floats::exact(0),
            Gauge::Over(shortfall) => shortfall,
            Gauge::Used(share) => share,
        }
    }
}
