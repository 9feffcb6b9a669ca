#![tactic(auto)]

ghost use Rattle.std.specs.Prelude.{◌≡◌};
ghost use Rattle.rates.specs.Lent.{given};
ghost use Rattle.rates.specs.Tables.{check_code, check_place};
ghost use Rattle.engine.specs.State.{state, found};
ghost use Rattle.engine.specs.Refused.{place_of};
ghost use Rattle.engine.specs.Calls.{answer, outcome_of, opening, moving, ordering, rolling};
ghost use Rattle.engine_c.specs.Face.{terms, filled, filled_report, filled_floats, covered, screen, screen_of};

use app_feed::Gauge;
use book::Terms;
use rates::Tables;
use whole::Refusal;
use whole::codes::DONE;

// The engine's calls for other languages: each passes its numbers and slices on. A slice is a pointer and a length; a number is itself.
// include/single_limit.h declares them, so each answers a code, a number, and takes the tables one by one.

// Numbers of a report.
const FIGURES: usize = 5;

// Check tables: the code; the place of the first broken number, with code 2, or of the first laxer one, with 13, goes to `place`, else 0.
#[unsafe(no_mangle)]
pub extern "C" fn single_limit_check_tables(
    clearing: &[i64],
    own: &[i64],
    groups: &[i64],
    place: &mut u64,
) -> u8
    ensures { (result ≡ check_code (given clearing own groups)) × (place.new ≡ check_place (given clearing own groups)) }
{
    let tables = Tables {
        clearing,
        own,
        groups,
    };
    let checked = engine::check_tables(tables);
    match checked {
        Ok(()) => {
            *place = 0;
            DONE
        }
        Err(fault) => {
            // No `u64::from` takes a usize; here both have 64 bits.
            *place = fault.place() as u64;
            u8::from(Refusal::from(fault))
        }
    }
}

// Whether the row in force of an asset keeps its rules and passes the cover test: 1, else 0.
#[unsafe(no_mangle)]
pub extern "C" fn single_limit_covers<'a>(clearing: &'a [i64], own: &'a [i64], asset: i64) -> u8
    ensures { result ≡ covered clearing.now own.now asset }
{
    let covers = book::asset_right(asset)
        && rates::covers(rates::row_in_force(clearing, own, asset as usize));
    u8::from(covers)
}

// Open an account, on a settlement code or on none.
#[unsafe(no_mangle)]
pub extern "C" fn single_limit_open(book: &mut [i64], account: i64, kind: i64, code: i64) -> u8
    ensures { answer result book ≡ outcome_of (opening (place_of account) kind code) (found book) }
{
    whole::code(engine::open(book, account, kind, code))
}

// Move collateral.
#[unsafe(no_mangle)]
pub extern "C" fn single_limit_move<'a>(
    book: &mut [i64],
    clearing: &'a [i64],
    own: &'a [i64],
    groups: &[i64],
    account: i64,
    asset: i64,
    amount: i64,
) -> u8
    ensures { answer result book ≡ outcome_of (moving (given clearing own groups) (place_of account) asset amount) (found book) }
{
    let tables = Tables {
        clearing,
        own,
        groups,
    };
    whole::code(engine::move_collateral(book, tables, account, asset, amount))
}

// Order. Its numbers come one by one, as C passes them.
#[unsafe(no_mangle)]
pub extern "C" fn single_limit_order<'a>(
    book: &mut [i64],
    clearing: &'a [i64],
    own: &'a [i64],
    groups: &[i64],
    account: i64,
    asset: i64,
    date: i64,
    side: i64,
    quantity: i64,
    money: i64,
) -> u8
    ensures { answer result book ≡ outcome_of (ordering (given clearing own groups) (place_of account) (terms asset date side quantity money)) (found book) }
{
    let o = Terms {
        asset,
        date,
        side,
        quantity,
        money,
    };
    let tables = Tables {
        clearing,
        own,
        groups,
    };
    whole::code(engine::order(book, tables, account, o))
}

// Roll an account.
#[unsafe(no_mangle)]
pub extern "C" fn single_limit_roll(book: &mut [i64], account: i64) -> u8
    ensures { answer result book ≡ outcome_of (rolling (place_of account)) (found book) }
{
    whole::code(engine::roll(book, account))
}

// Report: the code; the five figures go to `figures`, five numbers. Another length of it is code 1, and nothing is written.
#[unsafe(no_mangle)]
pub extern "C" fn single_limit_report<'a>(
    book: &[i64],
    clearing: &'a [i64],
    own: &'a [i64],
    groups: &[i64],
    account: i64,
    figures: &mut [i64],
) -> u8
    ensures { filled result figures ≡ filled_report (given clearing own groups) (place_of account) (state book.now) figures.old }
{
    let Some(figures) = figures.as_mut_array::<FIGURES>() else {
        return u8::from(Refusal::WrongLength);
    };
    let tables = Tables {
        clearing,
        own,
        groups,
    };
    match engine::report(book, tables, account) {
        Ok(found) => {
            *figures = found.five();
            DONE
        }
        Err(refusal) => {
            *figures = [0; FIGURES];
            u8::from(refusal)
        }
    }
}

// The app's feed: the code; the floats' bits go to `bits`, five numbers, unless it is refused; the gauge goes to `gauge` as a number and to `shown`
// as what it carries, 0 and +0.0 where it is empty.
#[unsafe(no_mangle)]
pub extern "C" fn single_limit_app<'a>(
    book: &[i64],
    clearing: &'a [i64],
    own: &'a [i64],
    groups: &[i64],
    account: i64,
    bits: &mut [u64],
    gauge: &mut u8,
    shown: &mut f64,
) -> u8
    ensures { screen result bits gauge shown ≡ screen_of (given clearing own groups) (place_of account) (state book.now) bits.old }
{
    let tables = Tables {
        clearing,
        own,
        groups,
    };
    let fed = app_feed::feed(book, tables, account, bits);
    let (code, drawn) = match fed {
        Ok(fed) => (DONE, fed.gauge),
        Err(refusal) => (u8::from(refusal), Gauge::Empty),
    };
    *gauge = u8::from(drawn);
    *shown = drawn.shown();
    code
}

// Five numbers read back: the code; the five floats go to `figures`, five of them, zeros when refused. Another length of it is code 1, and nothing is
// written.
// The steps are the report's, of another record: one function for both would be handed the answer, and so made before the length is looked at.
#[unsafe(no_mangle)]
pub extern "C" fn single_limit_app_read(bits: &[u64], figures: &mut [f64]) -> u8
    ensures { filled result figures ≡ filled_floats bits.now figures.old }
{
    let Some(figures) = figures.as_mut_array::<FIGURES>() else {
        return u8::from(Refusal::WrongLength);
    };
    match app_feed::receive(bits) {
        Ok(read) => {
            *figures = read.five();
            DONE
        }
        Err(refusal) => {
            *figures = [0.0; FIGURES];
            u8::from(refusal)
        }
    }
}
