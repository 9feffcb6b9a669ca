ghost use Rattle.std.specs.Prelude.{◌≡◌, ◌<◌, pos};
ghost use Rattle.whole.specs.Bounds.{◌within◌, ◌upto◌};
ghost use Rattle.whole.specs.Sums.{Σ<};
ghost use Rattle.whole.specs.Parts.{tabulated};
ghost use Rattle.rates.specs.Ranges.{RowRanges};
ghost use Rattle.book.specs.Ranges.{HoldingRanges};
ghost use Rattle.assets.specs.Asset.{net, adjusted_collateral, position, left_out, worth_of, asset_of};
ghost use Rattle.assets.specs.Joint.{with_record};
ghost use Rattle.assets.specs.Ranges.{ShareRange, AssetRanges};

use crate::collateral::Regime;
use crate::lent::{Holding, Row};
use crate::risk;
use book::in_block;
use rates::in_row;
use rates::units::DATE_COUNT;
use std::array;

// One asset's record, from the account's kind, the row in force and the asset's 17 numbers (document 01; clauses 4.2, 4.9).

// One asset's working record: its regime, its part of the valuation, and its adjusted positions by date.
#[derive(Clone, Copy, Debug, PartialEq, Eq)]
pub struct Asset {
    pub regime: Regime,
    pub worth: i64,
    pub positions: [i64; 8],
}

// The kind of a row of a currency or metal.
const CURRENCY: i64 = 2;

impl Holding<'_> {
    // Claims less obligations of date d.
    fn net_of(self, d: usize) -> i64
        requires { d < 8 }
        ensures { (result ≡ net self.entry.numbers.now d) × (result within 1000000) }
    {
        self.numbers[in_block::CLAIMS + d] - self.numbers[in_block::OBLIGATIONS + d]
    }

    // C' under the regime; `nets` are its claims less obligations by date, and T their sum.
    fn adjusted_collateral(self, regime: Regime, nets: [i64; 8]) -> i64
        requires { ShareRange regime × (nets ≡ tabulated 8 (position self.numbers.now (pos 0))) }
        ensures { (result ≡ adjusted_collateral regime self.entry.numbers.now) × (result within 1000000) }
    {
        let traded = risk::sum_of(nets);
        let held = self.numbers[in_block::COLLATERAL];
        regime.adjust(held, held + traded)
    }

    // The position of date d, with c added at date 0.
    fn position_of(self, c: i64, d: usize) -> i64
        requires { (d < 8) × (c within 2000000) }
        ensures { (result ≡ position self.entry.numbers.now c d) × (result within 3000000) }
    {
        let traded = self.net_of(d);
        if d == 0 {
            return traded + c;
        }
        traded
    }

    // The positions of the eight dates.
    fn positions_of(self, c: i64) -> [i64; 8]
        requires { c within 1000000 }
        ensures { result ≡ tabulated 8 (position self.entry.numbers.now c) }
    {
        array::from_fn(|d| self.position_of(c, d))
    }
}

// The claims of date 0 that the valuation leaves out.
fn left_out(regime: Regime, kind: usize, row: Row<'_>, holding: Holding<'_>) -> i64
    requires { ShareRange regime }
    ensures { (result ≡ left_out regime kind row.entry.numbers.now holding.entry.numbers.now) × (result upto 1000000) }
{
    if !whole::number_is(row.numbers, in_row::KIND, CURRENCY) {
        return 0;
    }
    let share = regime.share_in_force(kind, row);
    if !whole::lies_between(0, share, 0) {
        return 0;
    }
    holding.numbers[in_block::CLAIMS]
}

// The worth of date d's position, with c at date 0.
fn worth_of_date(row: Row<'_>, holding: Holding<'_>, c: i64, d: usize) -> i64
    requires { (c within 2000000) × (d < 8) }
    ensures { (result ≡ worth_of row.entry.numbers.now holding.entry.numbers.now c d) × (result within 30000000000000) }
{
    let units = holding.position_of(c, d);
    let level = row.numbers[in_row::PRICE] + row.numbers[in_row::DATES + in_row::DATE_LENGTH * d];
    units * level
}

// The worth of the eight dates.
fn worth_of(row: Row<'_>, holding: Holding<'_>, c: i64) -> i64
    requires { c within 2000000 }
    ensures { (result ≡ Σ< 8 (worth_of row.entry.numbers.now holding.entry.numbers.now c)) × (result within 240000000000000) }
{
    (0..DATE_COUNT)
        .map(|d| worth_of_date(row, holding, c, d))
        .sum()
}

// The asset's working record. Claims less obligations are made once, as positions with nothing added, for T and for all that follows.
pub fn asset_of(kind: usize, row: &[i64], holding: &[i64]) -> Asset
    requires { RowRanges row.now × HoldingRanges holding.now }
    ensures { (result ≡ asset_of kind row.now holding.now) × AssetRanges 1 result }
{
    let row = Row { numbers: row };
    let holding = Holding { numbers: holding };
    let regime = row.regime_of(kind);
    let nets = holding.positions_of(0);
    let c = holding.adjusted_collateral(regime, nets);
    let valued = regime.value(c);
    let out = left_out(regime, kind, row, holding);
    let worth = worth_of(row, holding, valued - out);
    let positions = holding.positions_of(c);
    Asset {
        regime,
        worth,
        positions,
    }
}

// A record with another block's added to it (4.11). The regime is x's: blocks of one kind have the same, and the caller hands in such.
pub fn with_record(x: Asset, y: Asset) -> Asset
    requires { AssetRanges 3 x × AssetRanges 1 y }
    ensures { result ≡ with_record x y }
{
    Asset {
        regime: x.regime,
        worth: x.worth + y.worth,
        positions: array::from_fn(|d| x.positions[d] + y.positions[d]),
    }
}
