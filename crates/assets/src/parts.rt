ghost use Rattle.std.specs.Prelude.{◌≡◌, cond, ◌<◌, pos};
ghost use Rattle.whole.specs.Bounds.{◌upto◌};
ghost use Rattle.rates.specs.Ranges.{RowRanges};
ghost use Rattle.assets.specs.Part.{group_of, part_of};
ghost use Rattle.assets.specs.Ranges.{AssetRanges, PartRanges};

use crate::lent::Row;
use crate::record::Asset;
use crate::risk;
use rates::in_row;

// One asset's part of the sums, from the row in force and its record (document 01; clause 7 for the side and the group).

// One asset's part of the sums over the assets: worth, both risks, the market risk again on the side of its position sum, and its spread group.
#[derive(Clone, Copy, Debug, PartialEq, Eq)]
pub struct Part {
    pub worth: i64,
    pub market: i64,
    pub interest: i64,
    pub long: i64,
    pub short: i64,
    // 0 for none: `group_of` and `by_group` of the definitions count from there, and `Totals` of figures has nine places for it.
    pub group: usize,
}

impl Row<'_> {
    // Its spread group, 0 for none.
    // The cast loses nothing: `RowRanges` says that a group is 0 to 8.
    fn group_of(self) -> usize
        ensures { (result ≡ group_of self.entry.numbers.now) × (result < 9) }
    {
        self.numbers[in_row::SPREAD_GROUP] as usize
    }
}

// x where it is so, else 0.
fn if_so(so: bool, x: i64) -> i64
    requires { x upto 640000000000000 }
    ensures { (result ≡ cond so x (pos 0)) × (result upto 640000000000000) }
{
    if so {
        return x;
    }
    0
}

// The asset's part of the sums. Its positions are summed once, for the risk and for the side.
pub fn part_of(row: &[i64], x: Asset) -> Part
    requires { RowRanges row.now × AssetRanges 4 x }
    ensures { (result ≡ part_of row.now x) × PartRanges result }
{
    let row = Row { numbers: row };
    let worth = x.worth;
    let positions = x.positions;
    let sum = risk::sum_of(positions);
    let market = row.market_risk(x, sum);
    let interest = row.interest_risk(positions);
    let long = if_so(0 < sum, market);
    let short = if_so(sum < 0, market);
    let group = row.group_of();
    Part {
        worth,
        market,
        interest,
        long,
        short,
        group,
    }
}
