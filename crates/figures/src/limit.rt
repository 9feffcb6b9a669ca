ghost use Rattle.std.specs.Prelude.{◌≡◌, ◌<◌};
ghost use Rattle.whole.specs.Bounds.{◌within◌, ◌upto◌};
ghost use Rattle.whole.specs.Sums.{Σ<};
ghost use Rattle.rates.specs.Lent.{numbers_of};
ghost use Rattle.rates.specs.Ranges.{TableRanges};
ghost use Rattle.book.specs.Block.{block_of};
ghost use Rattle.book.specs.Ranges.{BlockRanges};
ghost use Rattle.book.specs.Members.{over_members, MemberRanges};
ghost use Rattle.figures.specs.Limit.{discount_of, figures_of, five, rubles_of, EachFigure, EachFigureGives};
ghost use Rattle.figures.specs.Joint.{member_figures};
ghost use Rattle.figures.specs.Ranges.{GroupRanges, PercentRanges, TotalRanges};

use crate::sums;
use crate::sums::Totals;
use crate::valued::Valued;
use book::{Members, in_block};
use rates::Tables;
use rates::units::GROUP_COUNT;

// The discount, and the five figures (document 01; clause 7 and Single Limit).

// The five figures of a report, each a number of N: i64 in kopecks, or f64 as the phone app takes them.
#[derive(Clone, Copy, Debug, PartialEq, Eq)]
pub struct Figures<N> {
    pub valuation: N,
    pub market: N,
    pub interest: N,
    pub discount: N,
    pub limit: N,
}

impl<N: Copy> Figures<N> {
    // The five in a report's order.
    pub fn five(self) -> [N; 5]
        ensures { result ≡ five self }
    {
        [
            self.valuation,
            self.market,
            self.interest,
            self.discount,
            self.limit,
        ]
    }

    // What f gives of each of the five.
    pub fn map<M, F: Fn(N) -> M>(self, f: F) -> Figures<M>
        requires { EachFigure (F.pre f) self }
        ensures { EachFigureGives (F.post f) self result }
    {
        Figures {
            valuation: f(self.valuation),
            market: f(self.market),
            interest: f(self.interest),
            discount: f(self.discount),
            limit: f(self.limit),
        }
    }
}

const HUNDRED_PERCENT: i64 = 100;

// The discount of group g + 1.
// Groups and the two sides go together in two functions alone; that the percents are right is asked once more, where the two begin.
fn discount_of(groups: &[i64], longs: [i64; 9], shorts: [i64; 9], g: usize) -> i64
    requires { PercentRanges groups.now × GroupRanges 16 longs × GroupRanges 16 shorts × (g < 8) }
    ensures { (result ≡ discount_of groups.now longs shorts g) × (result upto 10240000000000000) }
{
    let long = longs[1 + g];
    let short = shorts[1 + g];
    let lesser = whole::lesser(long, short);
    whole::divided_down(2 * groups[g] * lesser, HUNDRED_PERCENT)
}

// The discount of the eight groups.
fn discounts(groups: &[i64], longs: [i64; 9], shorts: [i64; 9]) -> i64
    requires { PercentRanges groups.now × GroupRanges 16 longs × GroupRanges 16 shorts }
    ensures { (result ≡ Σ< 8 (discount_of groups.now longs shorts)) × (result upto 81920000000000000) }
{
    (0..GROUP_COUNT)
        .map(|g| discount_of(groups, longs, shorts, g))
        .sum()
}

// Ruble collateral and the ruble nets.
fn rubles_of(block: &[i64]) -> i64
    requires { BlockRanges block.now }
    ensures { (result ≡ rubles_of block.now) × (result within 900000000000000) }
{
    block[in_block::RUBLE_COLLATERAL..in_block::RUBLES_END]
        .iter()
        .sum()
}

// The rubles of the members.
fn joint_rubles(valued: Valued<'_>) -> i64
    ensures value { result ≡ over_members valued.entry.members (λ j. rubles_of (block_of valued.entry.book.now j)) }
    ensures size { result within 3600000000000000 }
{
    (0..valued.members.count)
        .map(|k| rubles_of(book::member_block(valued.book, valued.members, k)))
        .sum()
}

// The five figures from the sums.
fn figures_of(totals: Totals, groups: &[i64], rubles: i64) -> Figures<i64>
    requires { TotalRanges 16 totals × PercentRanges groups.now × (rubles within 3600000000000000) }
    ensures { result ≡ figures_of totals groups.now rubles }
{
    let longs = totals.long;
    let shorts = totals.short;
    let discount = discounts(groups, longs, shorts);
    let valuation = totals.valuation + rubles;
    let market = totals.market;
    let interest = totals.interest;
    let limit = valuation - market - interest + discount;
    Figures {
        valuation,
        market,
        interest,
        discount,
        limit,
    }
}

// The five figures of the members.
pub fn joint_figures(book: &[i64], members: Members, tables: Tables<'_>) -> Figures<i64>
    requires { MemberRanges book.now members × TableRanges (numbers_of tables) }
    ensures { result ≡ member_figures members book.now (numbers_of tables.entry) }
{
    let valued = Valued { book, members };
    let totals = sums::totals_of(valued, tables);
    let rubles = joint_rubles(valued);
    figures_of(totals, tables.groups, rubles)
}
