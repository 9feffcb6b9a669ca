ghost use Rattle.std.specs.Prelude.{◌≡◌, IfOk};
ghost use Rattle.whole.specs.Refusals.{first_code};
ghost use Rattle.whole.specs.Codes.{answer_code};
ghost use Rattle.engine.specs.State.{state, found};
ghost use Rattle.engine.specs.Refused.{place_of, roll_refusals};
ghost use Rattle.engine.specs.Calls.{answer, outcome_of, rolling};

use crate::gate;
use whole::Refusal;

// Roll, which is lent the book alone.

// The codes of a roll, or the account's place.
fn roll_gate(book: &[i64], account: i64) -> Result<usize, Refusal>
    ensures code { answer_code result ≡ first_code (roll_refusals (place_of account) (state book.now)) }
    ensures place { IfOk result (λ i. i ≡ place_of account) }
{
    let i = gate::book_gate(book, account)?;
    let right = settlement::code_right(book, i);
    gate::block_stands(book, i, right)?;
    if !book::roll_fits(book::block_of(book, i)) {
        return Err(Refusal::OutOfBounds);
    }
    Ok(i)
}

// Roll an account to the next day.
pub fn roll(book: &mut [i64], account: i64) -> Result<(), Refusal>
    ensures { answer (answer_code result) book ≡ outcome_of (rolling (place_of account)) (found book) }
{
    let i = roll_gate(&book[..], account)?;
    book::roll_in(book, i);
    Ok(())
}
