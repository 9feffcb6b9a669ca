ghost use Rattle.std.specs.Prelude.{◌≡◌};
ghost use Rattle.rates.specs.Lent.{numbers_of};
ghost use Rattle.engine.specs.State.{state};
ghost use Rattle.engine.specs.Refused.{place_of};
ghost use Rattle.app_feed.specs.Feed.{fed_as, sent, sent_of};

use crate::floats::Floats;
use crate::gauge::Gauge;
use crate::{floats, gauge};
use rates::Tables;
use whole::Refusal;

// The feed: a report as the app takes it.

// What goes out of a report: its figures as floats, and the gauge.
#[derive(Clone, Copy, Debug, PartialEq)]
pub struct Fed {
    pub figures: Floats,
    pub gauge: Gauge,
}

// Feed an account's report to the app; unless refused, the floats' bits go to the five lent numbers. The figures of one block are always below 2^53
// in size; those of a settlement code need not be, so they are looked at.
#[tactic(auto, using(crate::proofs::Refused::turned))]
pub fn feed(
    book: &[i64],
    tables: Tables<'_>,
    account: i64,
    bits: &mut [u64],
) -> Result<Fed, Refusal>
    ensures { sent (fed_as result) bits ≡ sent_of (numbers_of tables.entry) (place_of account) (state book.now) bits.old }
{
    if bits.len() != floats::COUNT {
        return Err(Refusal::WrongLength);
    }
    let found = engine::report(book, tables, account)?;
    if !floats::all_below(found) {
        return Err(Refusal::OutOfBounds);
    }
    let figures = floats::floats_of(found);
    let gauge = gauge::gauge_of(found);
    bits.copy_from_slice(&floats::bits_of(figures));
    Ok(Fed { figures, gauge })
}
