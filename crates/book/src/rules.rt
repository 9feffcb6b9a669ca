ghost use Rattle.std.specs.Prelude.{◌≡◌, Bool, ◌&&◌, map, ℕ, ◌<◌};
ghost use Rattle.whole.specs.Bounds.{between};
ghost use Rattle.whole.specs.Marks.{all_true, all_zero};
ghost use Rattle.book.specs.Asked.{Tells};
ghost use Rattle.book.specs.Block.{ruble_numbers};
ghost use Rattle.book.specs.Rules.{rubles_right, head_marks, holding_right, holding_right_at, good_block, stands, listed_if_held, holds_listed};

use crate::in_block;
use crate::in_block::{Block, Holding, holding_of};
use rates::units::ASSET_COUNT;

// The block rules (document 01, "Block").

// The numbers of a part of a block, of which only zeros are asked; a block is nine of them.
const PART: usize = 32;

// Whether every number lies from low to high.
// It answers no place, so it is `all` and not `check_between` of whole, which tells one.
fn all_between(numbers: &[i64], low: i64, high: i64) -> bool
    ensures { result ≡ all_true (map (λ x. between low x high) numbers.now) }
{
    numbers.iter().all(|x| whole::lies_between(low, *x, high))
}

// Whether an asset's 17 numbers keep their bounds.
fn holding_right(holding: &Holding) -> bool
    ensures { result ≡ holding_right holding.now }
{
    whole::number_between(
        holding,
        in_block::COLLATERAL,
        -in_block::MOST_UNITS,
        in_block::MOST_UNITS,
    ) && all_between(&holding[in_block::CLAIMS..], 0, in_block::MOST_UNITS)
}

// Whether ruble collateral and ruble nets keep their bounds.
fn rubles_right(block: &Block) -> bool
    ensures { result ≡ all_true (map rubles_right (ruble_numbers block.now)) }
{
    all_between(
        &block[in_block::RUBLE_COLLATERAL..in_block::RUBLES_END],
        -in_block::MOST_RUBLES,
        in_block::MOST_RUBLES,
    )
}

// Whether the head of an open block is right: its kind, its settlement code, and nothing else at 10 to 15.
// Numbers 10 to 12, 14 and 15 have no name: document 01 gives them no meaning. They are asked one by one, as `head_marks` lists them.
fn head_right(block: &Block) -> bool
    ensures { result ≡ all_true (head_marks block.now) }
{
    whole::number_between(
        block,
        in_block::ACCOUNT_KIND,
        in_block::FIRST_KIND,
        in_block::LAST_KIND,
    ) & whole::number_is(block, 10, 0)
        & whole::number_is(block, 11, 0)
        & whole::number_is(block, 12, 0)
        & whole::number_between(
            block,
            in_block::SETTLEMENT_CODE,
            0,
            in_block::LAST_SETTLEMENT_CODE,
        )
        & whole::number_is(block, 14, 0)
        & whole::number_is(block, 15, 0)
}

// Whether a block is all zero. It is looked at part by part, since the compiler takes the numbers of a part of a written length several together.
pub fn is_empty(block: &Block) -> bool
    ensures { result ≡ all_zero block.now }
{
    let (parts, _) = block.as_chunks::<PART>();
    parts.iter().all(|part| whole::all_zero(part))
}

// Whether a block is all zero where it is not open, and else has its head and rubles right and a holding that passes in every asset.
fn block_passing<F: Fn(usize) -> bool>(block: &Block, passes: F) -> bool
    requires { (a : ℕ) → a < 16 → F.pre passes a }
    ensures { (test : ℕ → Bool) → Tells F.Fn passes test → result ≡ stands block.now test }
{
    if whole::number_is(block, in_block::ACCOUNT_KIND, 0) {
        return is_empty(block);
    }
    head_right(block) && rubles_right(block) && (0..ASSET_COUNT).all(passes)
}

// Whether a block keeps the block rules.
pub fn block_right(block: &Block) -> bool
    ensures { result ≡ good_block block.now }
{
    block_passing(block, |a| holding_right(holding_of(block, a)))
}

// Whether every asset of which something is held is listed.
pub fn holds_listed(block: &Block, clearing: &[i64]) -> bool
    ensures { result ≡ holds_listed block.now clearing.now }
{
    (0..ASSET_COUNT).all(|a| rates::is_listed(clearing, a) || whole::all_zero(holding_of(block, a)))
}

// Whether asset a's numbers keep their bounds, and are zero where it is unlisted: zeros keep every bound, so of an unlisted asset that alone is asked.
fn holding_stands(block: &Block, clearing: &[i64], a: usize) -> bool
    requires { a < 16 }
    ensures { result ≡ holding_right_at block.now a && listed_if_held block.now clearing.now a }
{
    let holding = holding_of(block, a);
    if rates::is_listed(clearing, a) {
        return holding_right(holding);
    }
    whole::all_zero(holding)
}

// Whether a block keeps the block rules and every asset of which something is held is listed, by one look at each holding.
pub fn block_stands(block: &Block, clearing: &[i64]) -> bool
    ensures { result ≡ good_block block.now && holds_listed block.now clearing.now }
{
    block_passing(block, |a| holding_stands(block, clearing, a))
}
