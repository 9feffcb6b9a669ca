ghost use Rattle.std.specs.Prelude.{◌≡◌, ◌+◌, ◌*◌, ◌<◌, pos, ◌+ℤ◌, ◌-ℤ◌};
ghost use Rattle.std.specs.Int.Signed.{le_z};
ghost use Rattle.whole.specs.Parts.{number};
ghost use Rattle.whole.specs.Bounds.{between, ◌within◌, ◌upto◌};
ghost use Rattle.whole.specs.Marks.{check_from, all_true, pieces};
ghost use Rattle.rates.specs.Units.{ten_million, row_length, dates};
ghost use Rattle.rates.specs.Row.{dates_at, price, level};
ghost use Rattle.rates.specs.Rules.{date_marks};

use crate::in_row::Row;
use crate::pieces::each;
use crate::row::holds;
use crate::{in_row, units};

// The rules of a row's dates, five numbers each, the mid first. The price is right where they are looked at, and of a date the mid comes
// first; so price + mid is never taken of a mid that could make it wrap, and the others are measured from a mid within 10^7 of 0.

// Five functions ask that the price is right: `check_listed` of `row` hands them a plain row, and a struct for that one fact would be no plainer.

// Whether price + mid of date d lies from 0 to 10^7, asked of the mid.
fn level_right(row: &Row, d: usize) -> bool
    requires { (d < dates) × (price row.now upto 10000000) }
    ensures { result ≡ between (pos 0) (level row.now d) ten_million }
{
    let price = row[in_row::PRICE];
    whole::lies_between(
        -price,
        row[in_row::DATES + in_row::DATE_LENGTH * d],
        units::TEN_MILLION - price,
    )
}

// Whether number k lies from mid − 10^7 to number j.
// Here the bound of the size is below and number j above, in `above_mid` the other way round: one function for both would take the two bounds.
fn below_mid(row: &Row, mid: usize, k: usize, j: usize) -> bool
    requires { (mid < row_length) × (k < row_length) × (j < row_length) × (number row.now mid within 10000000) }
    ensures { result ≡ between (number row.now mid -ℤ ten_million) (number row.now k) (number row.now j) }
{
    whole::lies_between(row[mid] - units::TEN_MILLION, row[k], row[j])
}

// Whether number k lies from number j to mid + 10^7.
fn above_mid(row: &Row, mid: usize, j: usize, k: usize) -> bool
    requires { (mid < row_length) × (j < row_length) × (k < row_length) × (number row.now mid within 10000000) }
    ensures { result ≡ between (number row.now j) (number row.now k) (number row.now mid +ℤ ten_million) }
{
    whole::lies_between(row[j], row[k], row[mid] + units::TEN_MILLION)
}

// The numbers of date d, one after another. It is kept out of line, so that a right date costs the few tests of `date_right` and no more.
#[tactic(auto, unfolding(whole::specs::Marks::check_from, crate::specs::Rules::date_marks))]
#[cold]
#[inline(never)]
fn check_numbers(row: &Row, d: usize) -> Result<(), usize>
    requires { (d < dates) × (price row.now upto 10000000) }
    ensures { result ≡ check_from (dates_at + 5 * d) (date_marks row.now d) }
{
    let mid = in_row::DATES + in_row::DATE_LENGTH * d;
    let low = mid + in_row::LOW;
    let up = mid + in_row::UP;
    let outer_low = mid + in_row::OUTER_LOW;
    let outer_up = mid + in_row::OUTER_UP;
    holds(level_right(row, d), mid)?;
    holds(below_mid(row, mid, low, mid), low)?;
    holds(above_mid(row, mid, mid, up), up)?;
    holds(below_mid(row, mid, outer_low, low), outer_low)?;
    holds(above_mid(row, mid, up, outer_up), outer_up)
}

// Whether number j is no greater than number k.
fn in_order(row: &Row, j: usize, k: usize) -> bool
    requires { (j < row_length) × (k < row_length) }
    ensures { result ≡ le_z (number row.now j) (number row.now k) }
{
    row[j] <= row[k]
}

// Whether date d keeps its rules, asked of every date and so with as few tests as say it: outer low, low, mid, up and outer up stand in this order, and where
// the outer two are near enough to the mid the inner two are.
fn date_right(row: &Row, d: usize) -> bool
    requires { (d < dates) × (price row.now upto 10000000) }
    ensures { result ≡ all_true (date_marks row.now d) }
{
    let mid = in_row::DATES + in_row::DATE_LENGTH * d;
    if !level_right(row, d) {
        return false;
    }
    below_mid(row, mid, mid + in_row::OUTER_LOW, mid + in_row::LOW)
        & in_order(row, mid + in_row::LOW, mid)
        & in_order(row, mid, mid + in_row::UP)
        & above_mid(row, mid, mid + in_row::UP, mid + in_row::OUTER_UP)
}

// Date d. It is nearly always right, so which number is broken is asked only where it is not.
#[tactic(auto, using(whole::proofs::Checks::ok_by))]
fn check_date(row: &Row, d: usize) -> Result<(), usize>
    requires { (d < dates) × (price row.now upto 10000000) }
    ensures { result ≡ check_from (dates_at + 5 * d) (date_marks row.now d) }
{
    if date_right(row, d) {
        return Ok(());
    }
    check_numbers(row, d)
}

// The eight dates.
pub(crate) fn check_dates(row: &Row) -> Result<(), usize>
    requires { price row.now upto 10000000 }
    ensures { result ≡ check_from dates_at (pieces (date_marks row.now) 0 dates) }
{
    each(units::DATE_COUNT, |d| check_date(row, d))
}
