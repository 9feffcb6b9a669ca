ghost use Rattle.std.specs.Prelude.{◌≡◌};
ghost use Rattle.book.specs.Choices.{asset_right, is_rubles, choice_right, amounts_right, move_amount_right, trade_of};
ghost use Rattle.book.specs.Ranges.{TermsRanges};

use crate::changes::Trade;
use crate::in_block;
use rates::units;

// The numbers that an order or a move may name (document 01, codes 7 and 8), asked of the numbers alone; whether an asset is listed the
// tables say.

// What an order names, as it came: side 0 buys, side 1 sells.
#[derive(Clone, Copy, Debug, PartialEq, Eq)]
pub struct Terms {
    pub asset: i64,
    pub date: i64,
    pub side: i64,
    pub quantity: i64,
    pub money: i64,
}

// Casts of constants: `i64::from` takes no usize, and `try_from` is no constant.
const LAST_ASSET: i64 = units::ASSET_COUNT as i64 - 1;

const LAST_DATE: i64 = units::DATE_COUNT as i64 - 1;

const LAST_SIDE: i64 = 1;

const RUBLES: i64 = in_block::RUBLES as i64;

// Whether there is such an asset.
pub fn asset_right(asset: i64) -> bool
    ensures { result ≡ asset_right asset }
{
    whole::lies_between(0, asset, LAST_ASSET)
}

// Whether an order's asset, date and side are there to be chosen.
pub fn choice_right(o: Terms) -> bool
    ensures { result ≡ choice_right o }
{
    asset_right(o.asset)
        & whole::lies_between(0, o.date, LAST_DATE)
        & whole::lies_between(0, o.side, LAST_SIDE)
}

// Whether an order's quantity and money are in their bounds.
pub fn amounts_right(o: Terms) -> bool
    ensures { result ≡ amounts_right o }
{
    whole::lies_between(1, o.quantity, in_block::MOST_UNITS)
        & whole::lies_between(0, o.money, in_block::MOST_RUBLES)
}

// The trade that an order names. It asks for numbers in range, which a `From` could not.
pub fn trade_of(o: Terms) -> Trade
    requires { TermsRanges o }
    ensures { result ≡ trade_of o }
{
    Trade {
        asset: o.asset as usize,
        date: o.date as usize,
        side: o.side as usize,
        quantity: o.quantity,
        money: o.money,
    }
}

// Whether rubles are moved.
#[tactic(auto, using(whole::proofs::Bounds::same_bits, whole::proofs::Bounds::same_literal))]
pub fn is_rubles(asset: i64) -> bool
    ensures { result ≡ is_rubles asset }
{
    asset == RUBLES
}

// Whether an amount may be moved: not 0, and within the bounds of the asset or of rubles.
pub fn move_amount_right(asset: i64, amount: i64) -> bool
    ensures { result ≡ move_amount_right asset amount }
{
    // Not `==`: the check tried, and found no proof of the choice below it.
    if whole::lies_between(0, amount, 0) {
        return false;
    }
    if is_rubles(asset) {
        return whole::lies_between(-in_block::MOST_RUBLES, amount, in_block::MOST_RUBLES);
    }
    whole::lies_between(-in_block::MOST_UNITS, amount, in_block::MOST_UNITS)
}
