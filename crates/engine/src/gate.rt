ghost use Rattle.std.specs.Prelude.{◌≡◌, IfOk};
ghost use Rattle.std.specs.Int.{w64};
ghost use Rattle.std.proofs.Common.{SFits};
ghost use Rattle.whole.specs.Refusals.{first_code};
ghost use Rattle.whole.specs.Codes.{answer_code};
ghost use Rattle.rates.specs.Lent.{numbers_of};
ghost use Rattle.book.specs.AtAccount.{InBook};
ghost use Rattle.engine.specs.State.{state};
ghost use Rattle.engine.specs.Refused.{place_of, account_refusals, book_gate, table_gate, open_refusals, report_refusals};
ghost use Rattle.engine.specs.Refused.{figures_at, limit_of, enough, raised};
ghost use Rattle.engine.specs.Ranges.{Judgeable};

use book::in_block;
use figures::Figures;
use rates::Tables;
use whole::Refusal;

// What the calls begin with: codes 1, 2, 13, 3, then 6 of the account's settlement code and 4 of its block; and the figures of its code.
// A gate that lets a call through gives the account's place in the book.

// Book, tables and account are three parameters throughout: half of the calls lend the book to be changed, so that no one struct could lend it to both.

// Code 3, or an account's place in the book.
fn place(account: i64) -> Result<usize, Refusal>
    ensures code { answer_code result ≡ first_code (account_refusals (place_of account)) }
    ensures place { IfOk result (λ i. i ≡ place_of account) }
{
    match usize::try_from(account) {
        Ok(i) if i < in_block::ACCOUNTS => Ok(i),
        _ => Err(Refusal::NoAccount),
    }
}

// Codes 1 and 3 of a call that is lent the book alone.
pub(crate) fn book_gate(book: &[i64], account: i64) -> Result<usize, Refusal>
    ensures code { answer_code result ≡ first_code (book_gate (place_of account) (state book.now)) }
    ensures place { IfOk result (λ i. i ≡ place_of account) }
{
    if book.len() != in_block::BOOK_LENGTH {
        return Err(Refusal::WrongLength);
    }
    place(account)
}

// Codes 1, 2, 13 and 3 of a call that is lent tables and groups too.
fn table_gate(book: &[i64], tables: Tables<'_>, account: i64) -> Result<usize, Refusal>
    ensures code { answer_code result ≡ first_code (table_gate (numbers_of tables.entry) (place_of account) (state book.now)) }
    ensures place { IfOk result (λ i. i ≡ place_of account) }
{
    if book.len() != in_block::BOOK_LENGTH {
        return Err(Refusal::WrongLength);
    }
    rates::check_tables(tables)?;
    place(account)
}

// Codes 6 and 4; `right` says whether the account's settlement code is as the call asks for it.
pub(crate) fn block_stands(book: &[i64], i: usize, right: bool) -> Result<(), Refusal>
    requires { InBook book.now i }
    ensures { answer_code result ≡ first_code (open_refusals right i (state book.now)) }
{
    if !right {
        return Err(Refusal::BrokenBlock);
    }
    if whole::number_is(book::block_of(book, i), in_block::ACCOUNT_KIND, 0) {
        return Err(Refusal::NotOpen);
    }
    Ok(())
}

// The codes of a report, with which a move and an order begin.
pub(crate) fn report_gate(book: &[i64], tables: Tables<'_>, account: i64) -> Result<usize, Refusal>
    ensures code { answer_code result ≡ first_code (report_refusals (numbers_of tables.entry) (place_of account) (state book.now)) }
    ensures place { IfOk result (λ i. i ≡ place_of account) }
{
    let i = table_gate(book, tables, account)?;
    let right = settlement::code_stands(book, i, tables.clearing);
    block_stands(book, i, right)?;
    Ok(i)
}

// The figures of an account that may be judged: those of every block of its code together.
pub(crate) fn figures_at(book: &[i64], tables: Tables<'_>, i: usize) -> Figures<i64>
    requires { Judgeable (numbers_of tables) i (state book.now) }
    ensures { result ≡ figures_at (numbers_of tables.entry) i (state book.now) }
{
    let members = settlement::members_of(book, i);
    figures::joint_figures(book, members, tables)
}

// The Single Limit of an account that may be judged.
pub(crate) fn limit_at(book: &[i64], tables: Tables<'_>, i: usize) -> i64
    requires { Judgeable (numbers_of tables) i (state book.now) }
    ensures { (result ≡ limit_of (numbers_of tables.entry) i (state book.now)) × SFits w64 result }
{
    let figures = figures_at(book, tables, i);
    figures.limit
}

// The first ground: whether a limit is enough, zero or more.
pub(crate) fn is_enough(limit: i64) -> bool
    ensures { result ≡ enough limit }
{
    0 <= limit
}

// The second ground: whether a limit is raised, strictly greater than before.
pub(crate) fn is_raised(before: i64, after: i64) -> bool
    ensures { result ≡ raised before after }
{
    before < after
}
