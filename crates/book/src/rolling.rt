ghost use Rattle.std.specs.Prelude.{◌≡◌, length};
ghost use Rattle.book.specs.Rules.{rubles_right, collateral_right, in_bounds};
ghost use Rattle.book.specs.Roll.{day_later, rolled_rubles, rolled_holding, rolled};
ghost use Rattle.book.specs.Ranges.{RubleRanges, HoldingRanges, Bounded};
ghost use Rattle.whole.specs.Parts.{number};

use crate::in_block;
use crate::in_block::{
    Block, CLAIMS, COLLATERAL, HOLDING_LENGTH, HOLDINGS, Holding, OBLIGATIONS, holding_of,
};
use rates::units::{ASSET_COUNT, DATE_COUNT};

// The roll of a block (document 01, "Roll"), in place: first it is seen that every sum stays in its bounds, then each stretch is rolled.

// Of the nine ruble numbers the nets stand behind the collateral.
const NETS: usize = 1;

const NETS_END: usize = NETS + DATE_COUNT;

// The last of eight dates.
const LAST: usize = DATE_COUNT - 1;

// Eight numbers by date, a day later.
fn day_later(numbers: &mut [i64])
    requires { length numbers.old ≡ 8 }
    ensures { numbers.new ≡ day_later numbers.old }
{
    numbers.copy_within(1.., 0);
    numbers[LAST] = 0;
}

// Ruble collateral and the eight ruble nets.
fn roll_rubles(rubles: &mut [i64])
    requires { RubleRanges rubles.old }
    ensures { rubles.new ≡ rolled_rubles rubles.old }
{
    rubles[0] += rubles[NETS];
    day_later(&mut rubles[NETS..NETS_END]);
}

// An asset's collateral, claims and obligations.
fn roll_holding(holding: &mut [i64])
    requires { HoldingRanges holding.old }
    ensures { holding.new ≡ rolled_holding holding.old }
{
    holding[COLLATERAL] = holding[COLLATERAL] + holding[CLAIMS] - holding[OBLIGATIONS];
    day_later(&mut holding[CLAIMS..OBLIGATIONS]);
    day_later(&mut holding[OBLIGATIONS..HOLDING_LENGTH]);
}

// Roll a block: rubles and holdings. Each holding is cut out by its place: after `chunks_exact_mut` a proof knows nothing of the numbers.
pub(crate) fn roll(block: &mut [i64])
    requires { Bounded block.old }
    ensures { block.new ≡ rolled block.old }
{
    roll_rubles(&mut block[in_block::RUBLE_COLLATERAL..in_block::RUBLES_END]);
    for a in 0..ASSET_COUNT {
        let at = HOLDINGS + HOLDING_LENGTH * a;
        roll_holding(&mut block[at..at + HOLDING_LENGTH]);
    }
}

// Whether the ruble collateral stays in its bounds.
fn rubles_fit(rubles: &[i64]) -> bool
    requires { RubleRanges rubles.now }
    ensures { result ≡ rubles_right (number (rolled_rubles rubles.now) 0) }
{
    whole::lies_between(
        -in_block::MOST_RUBLES,
        rubles[0] + rubles[NETS],
        in_block::MOST_RUBLES,
    )
}

// Whether an asset's collateral stays in its bounds.
fn holding_fits(holding: &Holding) -> bool
    requires { HoldingRanges holding.now }
    ensures { result ≡ collateral_right (number (rolled_holding holding.now) 0) }
{
    whole::lies_between(
        -in_block::MOST_UNITS,
        holding[COLLATERAL] + holding[CLAIMS] - holding[OBLIGATIONS],
        in_block::MOST_UNITS,
    )
}

// Whether every number stays in its bounds: only the seventeen sums could leave them.
pub fn roll_fits(block: &Block) -> bool
    requires { Bounded block.now }
    ensures { result ≡ in_bounds (rolled block.now) }
{
    rubles_fit(&block[in_block::RUBLE_COLLATERAL..in_block::RUBLES_END])
        && (0..ASSET_COUNT).all(|a| holding_fits(holding_of(block, a)))
}
