ghost use Rattle.std.specs.Prelude.{◌≡◌, ◌+◌, ◌*◌, ◌<◌, [], ◌∷◌};
ghost use Rattle.whole.specs.Parts.{number};
ghost use Rattle.whole.specs.Bounds.{equal};
ghost use Rattle.whole.specs.Marks.{check_from, pieces};
ghost use Rattle.rates.specs.Units.{row_length, dates};
ghost use Rattle.rates.specs.Row.{rates_at, limits_at, dates_at};
ghost use Rattle.rates.specs.Stricter.{◌no_greater◌, ◌no_smaller◌, stricter_terms, stricter_rates, stricter_limits, stricter_date, stricter_row};

use crate::in_row::Row;
use crate::pieces::each;
use crate::row::holds;
use crate::{in_row, row, units};

// An own row may only be stricter than its clearing row (document 02, #103). As in `row`, each check answers Ok, or the place of the first laxer number.
// The rows' numbers are only compared, so none overflows.

// An own row, beside the clearing row that it stands over.
#[derive(Clone, Copy, Debug, PartialEq, Eq)]
pub(crate) struct OwnRow<'a> {
    pub own: &'a Row,
    pub clearing: &'a Row,
}

impl OwnRow<'_> {
    // That number k is the clearing row's.
    #[tactic(auto, using(whole::proofs::Bounds::same_bits))]
    fn same(self, k: usize) -> Result<(), usize>
        requires { k < row_length }
        ensures { result ≡ check_from k (equal (number self.entry.own.now k) (number self.entry.clearing.now k) ∷ []) }
    {
        holds(self.own[k] == self.clearing[k], k)
    }

    // That number k is no greater than the clearing row's.
    fn no_greater(self, k: usize) -> Result<(), usize>
        requires { k < row_length }
        ensures { result ≡ check_from k (number self.entry.own.now k no_greater number self.entry.clearing.now k ∷ []) }
    {
        holds(self.own[k] <= self.clearing[k], k)
    }

    // That number k is no smaller than the clearing row's.
    fn no_smaller(self, k: usize) -> Result<(), usize>
        requires { k < row_length }
        ensures { result ≡ check_from k (number self.entry.own.now k no_smaller number self.entry.clearing.now k ∷ []) }
    {
        holds(self.clearing[k] <= self.own[k], k)
    }

    // Numbers 0 to 5; the kind is the clearing row's by the rules of the tables.
    #[tactic(auto, unfolding(whole::specs::Marks::check_from, crate::specs::Stricter::stricter_terms))]
    fn stricter_terms(self) -> Result<(), usize>
        ensures { result ≡ check_from 0 (stricter_terms self.entry.own.now self.entry.clearing.now) }
    {
        self.same(in_row::PRICE)?;
        self.no_greater(in_row::ACCEPTANCE_SHARE)?;
        self.no_greater(in_row::POOL_SHARE)?;
        self.same(in_row::COVERED_SALES)?;
        self.no_smaller(in_row::SPECIAL_DELIVERY)
    }

    // Numbers 6 to 9.
    #[tactic(auto, unfolding(whole::specs::Marks::check_from, crate::specs::Stricter::stricter_rates))]
    fn stricter_rates(self) -> Result<(), usize>
        ensures { result ≡ check_from rates_at (stricter_rates self.entry.own.now self.entry.clearing.now) }
    {
        self.no_smaller(row::FALL)?;
        self.no_smaller(row::RISE)?;
        self.no_smaller(row::RAISED_FALL)?;
        self.no_smaller(row::RAISED_RISE)
    }

    // Numbers 10 to 15.
    #[tactic(auto, unfolding(whole::specs::Marks::check_from, crate::specs::Stricter::stricter_limits))]
    fn stricter_limits(self) -> Result<(), usize>
        ensures { result ≡ check_from limits_at (stricter_limits self.entry.own.now self.entry.clearing.now) }
    {
        self.no_greater(in_row::MARKET_LIMIT)?;
        self.no_greater(in_row::INTEREST_LIMIT)?;
        self.same(in_row::SPREAD_GROUP)
    }

    // Date d.
    #[tactic(auto, unfolding(whole::specs::Marks::check_from, crate::specs::Stricter::stricter_date))]
    fn stricter_date(self, d: usize) -> Result<(), usize>
        requires { d < dates }
        ensures { result ≡ check_from (dates_at + 5 * d) (stricter_date self.entry.own.now self.entry.clearing.now d) }
    {
        let mid = in_row::DATES + in_row::DATE_LENGTH * d;
        self.same(mid)?;
        self.no_greater(mid + in_row::LOW)?;
        self.no_smaller(mid + in_row::UP)?;
        self.no_greater(mid + in_row::OUTER_LOW)?;
        self.no_smaller(mid + in_row::OUTER_UP)
    }

    // The eight dates.
    fn stricter_dates(self) -> Result<(), usize>
        ensures { result ≡ check_from dates_at (pieces (stricter_date self.entry.own.now self.entry.clearing.now) 0 dates) }
    {
        each(units::DATE_COUNT, |d| self.stricter_date(d))
    }

    // A present own row.
    pub(crate) fn stricter(self) -> Result<(), usize>
        ensures { result ≡ check_from 0 (stricter_row self.entry.own.now self.entry.clearing.now) }
    {
        self.stricter_terms()?;
        self.stricter_rates()?;
        self.stricter_limits()?;
        self.stricter_dates()
    }
}
