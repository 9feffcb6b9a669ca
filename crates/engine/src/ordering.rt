ghost use Rattle.std.specs.Prelude.{◌≡◌, IfOk};
ghost use Rattle.whole.specs.Refusals.{first_code};
ghost use Rattle.whole.specs.Codes.{answer_code};
ghost use Rattle.rates.specs.Lent.{numbers_of};
ghost use Rattle.engine.specs.State.{state, found};
ghost use Rattle.engine.specs.Refused.{place_of, order_checks, order_stands};
ghost use Rattle.engine.specs.Ranges.{TradeStands};
ghost use Rattle.engine.specs.Calls.{answer, outcome_of, judged_trade, raising_trade, ordering};

use crate::gate;
use book::{Terms, Trade};
use rates::Tables;
use whole::Refusal;

// The order: booked at once in the account's block, taken back where the limit with it is not enough, and booked again where it raised the limit.

// Codes 7 and 8.
fn order_checks(clearing: &[i64], o: Terms) -> Result<(), Refusal>
    ensures { answer_code result ≡ first_code (order_checks clearing.now o) }
{
    if !(book::choice_right(o) && rates::is_listed(clearing, o.asset as usize)) {
        return Err(Refusal::WrongChoice);
    }
    if !book::amounts_right(o) {
        return Err(Refusal::WrongAmount);
    }
    Ok(())
}

// Every code of an order before 10, or the account's place. A move's gate is another function: what they check and what must fit differ, and one function
// of both would take that as three closures.
fn order_gate(book: &[i64], tables: Tables<'_>, account: i64, o: Terms) -> Result<usize, Refusal>
    ensures code { answer_code result ≡ first_code (order_stands (numbers_of tables.entry) (place_of account) o (state book.now)) }
    ensures place { IfOk result (λ i. i ≡ place_of account) }
{
    let i = gate::report_gate(book, tables, account)?;
    order_checks(tables.clearing, o)?;
    if !book::trade_fits(book::block_of(book, i), book::trade_of(o)) {
        return Err(Refusal::OutOfBounds);
    }
    Ok(i)
}

// Every code of an order before 10: whether it may be judged. Nothing is changed.
pub fn order_stands(book: &[i64], tables: Tables<'_>, account: i64, o: Terms) -> Result<(), Refusal>
    ensures { answer_code result ≡ first_code (order_stands (numbers_of tables.entry) (place_of account) o (state book.now)) }
{
    order_gate(book, tables, account, o)?;
    Ok(())
}

// The second ground: book a trade that stands where the limit with it, `after`, is above the limit without it, or answer 10.
fn book_if_raised(
    book: &mut [i64],
    tables: Tables<'_>,
    i: usize,
    t: Trade,
    after: i64,
) -> Result<(), Refusal>
    requires { TradeStands (numbers_of tables) i (state book.old) t }
    ensures { answer (answer_code result) book ≡ outcome_of (raising_trade (numbers_of tables.entry) i t after) (found book) }
{
    let before = gate::limit_at(&book[..], tables, i);
    if !gate::is_raised(before, after) {
        return Err(Refusal::NegativeLimit);
    }
    book::trade_in(book, i, t);
    Ok(())
}

// Book a trade that stands, or answer 10. The limit without it is worked out only where the limit with it is not enough.
fn judge_order(book: &mut [i64], tables: Tables<'_>, i: usize, t: Trade) -> Result<(), Refusal>
    requires { TradeStands (numbers_of tables) i (state book.old) t }
    ensures { answer (answer_code result) book ≡ outcome_of (judged_trade (numbers_of tables.entry) i t) (found book) }
{
    book::trade_in(book, i, t);
    let after = gate::limit_at(&book[..], tables, i);
    if gate::is_enough(after) {
        return Ok(());
    }
    let back = book::reversed(t);
    book::trade_in(book, i, back);
    book_if_raised(book, tables, i, t, after)
}

// An order.
pub fn order(book: &mut [i64], tables: Tables<'_>, account: i64, o: Terms) -> Result<(), Refusal>
    ensures { answer (answer_code result) book ≡ outcome_of (ordering (numbers_of tables.entry) (place_of account) o) (found book) }
{
    let i = order_gate(&book[..], tables, account, o)?;
    judge_order(book, tables, i, book::trade_of(o))
}
