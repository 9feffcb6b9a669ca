ghost use Rattle.std.specs.Prelude.{◌≡◌};
ghost use Rattle.rates.specs.Lent.{numbers_of};
ghost use Rattle.rates.specs.Faults.{checked_as};
ghost use Rattle.rates.specs.Tables.{checked};
ghost use Rattle.engine.specs.State.{state};
ghost use Rattle.engine.specs.Refused.{place_of};
ghost use Rattle.engine.specs.Report.{report_of, reported_as};

use crate::gate;
use figures::Figures;
use rates::{Fault, Tables};
use whole::Refusal;

// Check tables, and the report.

// Check tables: what turns them away, with the place of the first broken number or of the first laxer one.
pub fn check_tables(tables: Tables<'_>) -> Result<(), Fault>
    ensures { checked_as result ≡ checked (numbers_of tables.entry) }
{
    rates::check_tables(tables)
}

// Report an account: its five figures.
pub fn report(book: &[i64], tables: Tables<'_>, account: i64) -> Result<Figures<i64>, Refusal>
    ensures { reported_as result ≡ report_of (numbers_of tables.entry) (place_of account) (state book.now) }
{
    let i = gate::report_gate(book, tables, account)?;
    let figures = gate::figures_at(book, tables, i);
    Ok(figures)
}
