ghost use Rattle.std.specs.Prelude.{◌≡◌, IfOk};
ghost use Rattle.whole.specs.Refusals.{first_code};
ghost use Rattle.whole.specs.Codes.{answer_code};
ghost use Rattle.rates.specs.Lent.{numbers_of};
ghost use Rattle.engine.specs.State.{state, found};
ghost use Rattle.engine.specs.Refused.{place_of, move_choice_right, move_checks, move_stands};
ghost use Rattle.engine.specs.Ranges.{MoveStands};
ghost use Rattle.engine.specs.Calls.{answer, outcome_of, judged_move, moving};

use crate::gate;
use rates::Tables;
use whole::Refusal;

// The move of collateral: a deposit is never asked for the limit; a withdrawal is taken back where the limit without it is negative.

// The casts of an asset here and in `ordering` lose nothing: `asset_right`, `choice_right` or `is_rubles` is asked before each.

// Whether an asset can be moved: rubles, or one of the sixteen that is listed.
fn can_be_moved(clearing: &[i64], asset: i64) -> bool
    ensures { result ≡ move_choice_right clearing.now asset }
{
    book::is_rubles(asset)
        || (book::asset_right(asset) && rates::is_listed(clearing, asset as usize))
}

// Codes 7 and 8.
fn move_checks(clearing: &[i64], asset: i64, amount: i64) -> Result<(), Refusal>
    ensures { answer_code result ≡ first_code (move_checks clearing.now asset amount) }
{
    if !can_be_moved(clearing, asset) {
        return Err(Refusal::WrongChoice);
    }
    if !book::move_amount_right(asset, amount) {
        return Err(Refusal::WrongAmount);
    }
    Ok(())
}

// Every code of a move before 10, or the account's place.
// `order_gate` has the same steps. The checks, the fit and what is cast differ, and one function for both would take a closure for each.
fn move_gate(
    book: &[i64],
    tables: Tables<'_>,
    account: i64,
    asset: i64,
    amount: i64,
) -> Result<usize, Refusal>
    ensures code { answer_code result ≡ first_code (move_stands (numbers_of tables.entry) (place_of account) asset amount (state book.now)) }
    ensures place { IfOk result (λ i. i ≡ place_of account) }
{
    let i = gate::report_gate(book, tables, account)?;
    move_checks(tables.clearing, asset, amount)?;
    if !book::move_fits(book::block_of(book, i), asset as usize, amount) {
        return Err(Refusal::OutOfBounds);
    }
    Ok(i)
}

// Every code of a move before 10: whether it may be judged. Nothing is changed.
pub fn move_stands(
    book: &[i64],
    tables: Tables<'_>,
    account: i64,
    asset: i64,
    amount: i64,
) -> Result<(), Refusal>
    ensures { answer_code result ≡ first_code (move_stands (numbers_of tables.entry) (place_of account) asset amount (state book.now)) }
{
    move_gate(book, tables, account, asset, amount)?;
    Ok(())
}

// Make a move that stands, or answer 10.
fn judge_move(
    book: &mut [i64],
    tables: Tables<'_>,
    i: usize,
    asset: usize,
    amount: i64,
) -> Result<(), Refusal>
    requires { MoveStands (numbers_of tables) i (state book.old) asset amount }
    ensures { answer (answer_code result) book ≡ outcome_of (judged_move (numbers_of tables.entry) i asset amount) (found book) }
{
    book::move_in(book, i, asset, amount);
    if 0 <= amount {
        return Ok(());
    }
    let limit = gate::limit_at(&book[..], tables, i);
    if gate::is_enough(limit) {
        return Ok(());
    }
    book::move_in(book, i, asset, -amount);
    Err(Refusal::NegativeLimit)
}

// Move collateral of an asset, or of rubles (255): a positive amount deposits, a negative one withdraws.
pub fn move_collateral(
    book: &mut [i64],
    tables: Tables<'_>,
    account: i64,
    asset: i64,
    amount: i64,
) -> Result<(), Refusal>
    ensures { answer (answer_code result) book ≡ outcome_of (moving (numbers_of tables.entry) (place_of account) asset amount) (found book) }
{
    let i = move_gate(&book[..], tables, account, asset, amount)?;
    judge_move(book, tables, i, asset as usize, amount)
}
