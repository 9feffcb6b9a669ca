ghost use Rattle.std.specs.Prelude.{◌≡◌, pos};
ghost use Rattle.whole.specs.Codes.{answer_code};
ghost use Rattle.rates.specs.Lent.{numbers_of};
ghost use Rattle.engine.specs.State.{state, found};
ghost use Rattle.engine.specs.Calls.{answer, outcome_of, opening, rolling};
ghost use Rattle.engine.specs.Report.{report_of, reported_as};
ghost use Rattle.session_lines.specs.Session.{tables_of, place_code, parameter_set, account_at, line_move, terms_of, line_order};

use crate::sizes::{GROUPS, OWN, PARAMETERS};
use book::Terms;
use engine::Tables;
use figures::Figures;
use frames::{MoveNumbers, OrderNumbers};
use whole::Refusal;

// The engine's calls with the numbers of a frame; the parameters are lent as both tables and groups.

#[tactic(auto, unfolding(whole::specs::Parts::part))]
fn tables_of(parameters: &[i64; PARAMETERS]) -> Tables<'_>
    ensures { numbers_of result ≡ tables_of parameters.now }
{
    Tables {
        clearing: &parameters[..OWN],
        own: &parameters[OWN..GROUPS],
        groups: &parameters[GROUPS..],
    }
}

// 01: any number, with no table check.
#[tactic(auto, unfolding(crate::specs::Session::place_code, crate::specs::Session::parameter_set, whole::specs::Refusals::leaves))]
pub(crate) fn set_parameter(
    parameters: &mut [i64; PARAMETERS],
    place: usize,
    number: i64,
) -> Result<(), Refusal>
    ensures { (answer_code result ≡ place_code place) × (parameters.new ≡ parameter_set parameters.old place number) }
{
    if place < PARAMETERS {
        parameters[place] = number;
        return Ok(());
    }
    Err(Refusal::WrongChoice)
}

// 02
pub(crate) fn open(book: &mut [i64], account: u8, kind: u8, code: u8) -> Result<(), Refusal>
    ensures { answer (answer_code result) book ≡ outcome_of (opening (account_at account) (pos kind) (pos code)) (found book) }
{
    engine::open(book, i64::from(account), i64::from(kind), i64::from(code))
}

// 03
#[tactic(auto, unfolding(crate::specs::Session::line_move))]
pub(crate) fn move_collateral(
    book: &mut [i64],
    parameters: &[i64; PARAMETERS],
    line: MoveNumbers,
) -> Result<(), Refusal>
    ensures { answer (answer_code result) book ≡ outcome_of (line_move parameters.now line) (found book) }
{
    engine::move_collateral(
        book,
        tables_of(parameters),
        i64::from(line.account),
        i64::from(line.asset),
        line.amount,
    )
}

// 04. No `From`: neither type is this crate's (the orphan rule).
#[tactic(auto, unfolding(crate::specs::Session::terms_of))]
fn terms_of(line: OrderNumbers) -> Terms
    ensures { result ≡ terms_of line }
{
    Terms {
        asset: i64::from(line.asset),
        date: i64::from(line.date),
        side: i64::from(line.side),
        quantity: line.quantity,
        money: line.money,
    }
}

#[tactic(auto, unfolding(crate::specs::Session::line_order))]
pub(crate) fn order(
    book: &mut [i64],
    parameters: &[i64; PARAMETERS],
    line: OrderNumbers,
) -> Result<(), Refusal>
    ensures { answer (answer_code result) book ≡ outcome_of (line_order parameters.now line) (found book) }
{
    engine::order(
        book,
        tables_of(parameters),
        i64::from(line.account),
        terms_of(line),
    )
}

// 05
pub(crate) fn roll(book: &mut [i64], account: u8) -> Result<(), Refusal>
    ensures { answer (answer_code result) book ≡ outcome_of (rolling (account_at account)) (found book) }
{
    engine::roll(book, i64::from(account))
}

// 06
pub(crate) fn report(
    book: &[i64],
    parameters: &[i64; PARAMETERS],
    account: u8,
) -> Result<Figures<i64>, Refusal>
    ensures { reported_as result ≡ report_of (tables_of parameters.now) (account_at account) (state book.now) }
{
    engine::report(book, tables_of(parameters), i64::from(account))
}
