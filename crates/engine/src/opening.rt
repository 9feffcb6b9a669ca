ghost use Rattle.std.specs.Prelude.{◌≡◌, IfOk};
ghost use Rattle.whole.specs.Refusals.{first_code};
ghost use Rattle.whole.specs.Codes.{answer_code};
ghost use Rattle.engine.specs.State.{state, found};
ghost use Rattle.engine.specs.Refused.{place_of, open_stands};
ghost use Rattle.engine.specs.Ranges.{Openable};
ghost use Rattle.engine.specs.Calls.{answer, outcome_of, judged_opening, opening};

use crate::gate;
use book::in_block;
use whole::Refusal;

// Open, which is lent the book alone: the block is opened, and closed again where its settlement code would not be right with it.

// Every code of an open before 7, or the place of the account, whose block is empty.
fn open_gate(book: &[i64], account: i64) -> Result<usize, Refusal>
    ensures code { answer_code result ≡ first_code (open_stands (place_of account) (state book.now)) }
    ensures place { IfOk result (λ i. i ≡ place_of account) }
{
    let i = gate::book_gate(book, account)?;
    let block = book::block_of(book, i);
    if whole::number_between(
        block,
        in_block::ACCOUNT_KIND,
        in_block::FIRST_KIND,
        in_block::LAST_KIND,
    ) {
        return Err(Refusal::AlreadyOpen);
    }
    if !book::is_empty(block) {
        return Err(Refusal::BrokenBlock);
    }
    Ok(i)
}

// Open an empty block on a settlement code, or answer 7.
fn judge_opening(book: &mut [i64], i: usize, kind: i64, code: i64) -> Result<(), Refusal>
    requires { Openable i (state book.old) }
    ensures { answer (answer_code result) book ≡ outcome_of (judged_opening i kind code) (found book) }
{
    if !whole::lies_between(in_block::FIRST_KIND, kind, in_block::LAST_KIND) {
        return Err(Refusal::WrongChoice);
    }
    book::open_in(book, i, kind, code);
    if settlement::code_right(&book[..], i) {
        return Ok(());
    }
    book::open_in(book, i, 0, 0);
    Err(Refusal::WrongChoice)
}

// Open an account: kind 1 ordinary, 2 pool, 3 pool of the list; on a settlement code of 1 to 15, or 0 for none.
pub fn open(book: &mut [i64], account: i64, kind: i64, code: i64) -> Result<(), Refusal>
    ensures { answer (answer_code result) book ≡ outcome_of (opening (place_of account) kind code) (found book) }
{
    let i = open_gate(&book[..], account)?;
    judge_opening(book, i, kind, code)
}
