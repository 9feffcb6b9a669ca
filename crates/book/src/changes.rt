ghost use Rattle.std.specs.Prelude.{◌≡◌, not, ◌<◌, ◌+ℤ◌, length};
ghost use Rattle.whole.specs.Bounds.{between, ◌within◌, ◌upto◌};
ghost use Rattle.whole.specs.Parts.{number};
ghost use Rattle.book.specs.Block.{block_length, most_rubles, move_at, trade_at};
ghost use Rattle.book.specs.Rules.{in_bounds};
ghost use Rattle.book.specs.Changes.{opened, added, money_of, traded, reversed, most_of, least_after, moved, move_out};
ghost use Rattle.book.specs.Ranges.{TradeRanges, Tradable, Movable, MoveAsset};

use crate::in_block;
use crate::in_block::Block;
use rates::units;

// What open, a move and a trade leave in a block (document 01, "Calls and turning away"). A move and a trade add to numbers; the same with the
// amounts turned round takes them back.

// A trade: a buy on side 0, a sell on side 1. The side is a number, since specs/Changes says of every number what a trade of that side does.
#[derive(Clone, Copy, Debug, PartialEq, Eq)]
pub struct Trade {
    pub asset: usize,
    pub date: usize,
    pub side: usize,
    pub quantity: i64,
    pub money: i64,
}

// Open a block on a settlement code.
pub(crate) fn open(block: &mut [i64], kind: i64, code: i64)
    requires { length block.old ≡ block_length }
    ensures { block.new ≡ opened block.old kind code }
{
    block[in_block::ACCOUNT_KIND] = kind;
    block[in_block::SETTLEMENT_CODE] = code;
}

// Whether number k with an amount added lies from low to high.
fn fits_after(block: &Block, k: usize, amount: i64, low: i64, high: i64) -> bool
    requires { (k < length block.now) × (number block.now k within most_rubles) × (amount within most_rubles) }
    ensures { result ≡ between low (number block.now k +ℤ amount) high }
{
    whole::lies_between(low, block[k] + amount, high)
}

// Add an amount to number k.
fn add(block: &mut [i64], k: usize, amount: i64)
    requires { (k < length block.old) × (number block.old k within most_rubles) × (amount within most_rubles) }
    ensures { block.new ≡ added block.old k amount }
{
    block[k] += amount;
}

// Where the claim or the obligation stands that a trade adds to.
// `TradeRanges` is asked, and is no field of `Trade`: `reversed` and `trade_of` of the definitions make a trade of any five numbers.
fn trade_at(t: Trade) -> usize
    requires { TradeRanges t }
    ensures { result ≡ trade_at t.asset t.date t.side }
{
    in_block::HOLDINGS
        + in_block::HOLDING_LENGTH * t.asset
        + in_block::CLAIMS
        + units::DATE_COUNT * t.side
        + t.date
}

// What a trade does to its date's ruble net: a buy takes the money from it, a sell adds it.
fn money_of(t: Trade) -> i64
    requires { TradeRanges t }
    ensures { (result ≡ money_of t) × (result within most_rubles) }
{
    if t.side == 0 { -t.money } else { t.money }
}

// The trade that takes a trade back.
pub fn reversed(t: Trade) -> Trade
    requires { TradeRanges t }
    ensures { (result ≡ reversed t) × TradeRanges result }
{
    Trade {
        quantity: -t.quantity,
        money: -t.money,
        ..t
    }
}

// Whether every number stays in its bounds with a trade booked: only its own two could leave them.
pub fn trade_fits(block: &Block, t: Trade) -> bool
    requires { Tradable block.now t }
    ensures { result ≡ in_bounds (traded block.now t) }
{
    fits_after(block, trade_at(t), t.quantity, 0, in_block::MOST_UNITS)
        && fits_after(
            block,
            in_block::RUBLE_NETS + t.date,
            money_of(t),
            -in_block::MOST_RUBLES,
            in_block::MOST_RUBLES,
        )
}

// Book a trade.
pub(crate) fn book_trade(block: &mut [i64], t: Trade)
    requires { Tradable block.old t }
    ensures { block.new ≡ traded block.old t }
{
    let at = trade_at(t);
    let money = money_of(t);
    add(block, at, t.quantity);
    add(block, in_block::RUBLE_NETS + t.date, money);
}

// Where the collateral stands that a move names: an asset's, or that of rubles.
fn move_at(asset: usize) -> usize
    requires { MoveAsset asset }
    ensures { (result ≡ move_at asset) × (result < block_length) }
{
    if asset == in_block::RUBLES {
        in_block::RUBLE_COLLATERAL
    } else {
        in_block::HOLDINGS + in_block::HOLDING_LENGTH * asset
    }
}

// The most that may stand there.
fn most_of(asset: usize) -> i64
    ensures { (result ≡ most_of asset) × (result upto most_rubles) }
{
    if asset == in_block::RUBLES {
        in_block::MOST_RUBLES
    } else {
        in_block::MOST_UNITS
    }
}

// The least that a move may leave there: 0 for a withdrawal, else −most.
#[tactic(auto, unfolding(crate::specs::Changes::least_after))]
fn least_after(amount: i64, most: i64) -> i64
    requires { most upto most_rubles }
    ensures { (result ≡ least_after amount most) × (result within most_rubles) }
{
    if amount < 0 { 0 } else { -most }
}

// Whether a move may be booked: its number stays in its bounds, and a withdrawal leaves nothing below 0.
pub fn move_fits(block: &Block, asset: usize, amount: i64) -> bool
    requires { Movable block.now asset amount }
    ensures { result ≡ not (move_out block.now asset amount) }
{
    let most = most_of(asset);
    fits_after(
        block,
        move_at(asset),
        amount,
        least_after(amount, most),
        most,
    )
}

// Move collateral of an asset, or of rubles.
pub(crate) fn move_collateral(block: &mut [i64], asset: usize, amount: i64)
    requires { Movable block.old asset amount }
    ensures { block.new ≡ moved block.old asset amount }
{
    add(block, move_at(asset), amount);
}
