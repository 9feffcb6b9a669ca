ghost use Rattle.std.specs.Prelude.{◌≡◌};
ghost use Rattle.rates.specs.Lent.{numbers_of};
ghost use Rattle.rates.specs.Ranges.{TableRanges};
ghost use Rattle.figures.specs.Limit.{totals_of};
ghost use Rattle.figures.specs.Joint.{member_part};

use crate::valued::Valued;
use rates::Tables;
use rates::units::ASSET_COUNT;

// The sums over the assets of the members.

// Sums over assets: valuation, both risks, and market risk by side and group 0 to 8. The sides are two lists, as the definition `totals_of` and the
// statements over it have them.
#[derive(Debug, PartialEq, Eq, Drop)]
pub struct Totals {
    pub valuation: i64,
    pub market: i64,
    pub interest: i64,
    pub long: [i64; 9],
    pub short: [i64; 9],
}

// The sums over the sixteen assets, which are added up where they stand: no turn copies them. An asset of which no member holds anything adds nothing and is
// passed by before its row is looked up, so that members cost by what they hold.
pub(crate) fn totals_of(valued: Valued<'_>, tables: Tables<'_>) -> Totals
    requires { TableRanges (numbers_of tables) }
    ensures { result ≡ totals_of (member_part valued.entry.members valued.entry.book.now (numbers_of tables.entry)) 16 }
{
    let mut valuation: i64 = 0;
    let mut market: i64 = 0;
    let mut interest: i64 = 0;
    let mut long = [0i64; 9];
    let mut short = [0i64; 9];
    for a in 0..ASSET_COUNT {
        if valued.none_holds(a) {
            continue;
        }
        let part = valued.part(tables, a);
        let group = part.group;
        valuation += part.worth;
        market += part.market;
        interest += part.interest;
        long[group] += part.long;
        short[group] += part.short;
    }
    Totals {
        valuation,
        market,
        interest,
        long,
        short,
    }
}
