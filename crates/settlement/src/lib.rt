#![tactic(auto)]

ghost use Rattle.std.specs.Prelude.{◌≡◌, Bool, ◌&&◌, ℕ, ◌<◌};
ghost use Rattle.whole.specs.Bounds.{equal, is_zero};
ghost use Rattle.book.specs.Block.{block_of, account_kind, settlement_code};
ghost use Rattle.book.specs.Rules.{holds_listed};
ghost use Rattle.book.specs.AtAccount.{InBook};
ghost use Rattle.book.specs.Asked.{Tells};
ghost use Rattle.settlement.specs.Code.{on_code, passing, member_right, code_right, code_holds_listed};
ghost use Rattle.settlement.specs.Members.{members_of, CodeRanges};

use book::in_block::Block;
use book::{Members, in_block};

// Settlement codes (clause 4.11): which blocks of the book are on an account's code, whether they are right, and the list of them. An account on no
// code pays for one comparison more than its own block's; for one on a code every account is looked at.

// The most blocks on one code.
// `Members` has as many places.
const MOST_MEMBERS: usize = 4;

// An account of a whole book, of whose code something is asked.
#[derive(Clone, Copy, Debug, PartialEq, Eq)]
struct Account<'a> {
    book: &'a [i64],
    i: usize,
    ghost there: { InBook book.now i },
}

impl<'a> Account<'a> {
    // Its own block.
    fn own(&self) -> &'a Block
        ensures { result.now ≡ block_of self.now.book.now self.now.i }
    {
        book::block_of(self.book, self.i)
    }

    // Block j.
    fn block(&self, j: usize) -> &'a Block
        requires { j < 16 }
        ensures { result.now ≡ block_of self.now.book.now j }
    {
        book::block_of(self.book, j)
    }

    // Whether it is on no code.
    fn on_no_code(&self) -> bool
        ensures { result ≡ is_zero (settlement_code (block_of self.now.book.now self.now.i)) }
    {
        whole::number_is(self.own(), in_block::SETTLEMENT_CODE, 0)
    }

    // Whether block j is on its code.
    fn on_code(&self, j: usize) -> bool
        requires { j < 16 }
        ensures { result ≡ on_code self.now.book.now self.now.i j }
    {
        if self.i == j {
            return true;
        }
        if self.on_no_code() {
            return false;
        }
        let own = self.own();
        whole::number_is(
            self.block(j),
            in_block::SETTLEMENT_CODE,
            own[in_block::SETTLEMENT_CODE],
        )
    }

    // Whether block j has its kind.
    fn same_kind(&self, j: usize) -> bool
        requires { j < 16 }
        ensures { result ≡ equal (account_kind (block_of self.now.book.now j)) (account_kind (block_of self.now.book.now self.now.i)) }
    {
        let block = self.block(j);
        let own = self.own();
        whole::number_is(block, in_block::ACCOUNT_KIND, own[in_block::ACCOUNT_KIND])
    }

    // Whether block j keeps the block rules and has its kind.
    fn member_right(&self, j: usize) -> bool
        requires { j < 16 }
        ensures { result ≡ member_right self.now.book.now self.now.i j }
    {
        book::block_right(self.block(j)) && self.same_kind(j)
    }

    // Whether block j keeps the block rules, holds listed assets only and has its kind.
    fn member_stands(&self, clearing: &[i64], j: usize) -> bool
        requires { j < 16 }
        ensures { result ≡ member_right self.now.book.now self.now.i j && holds_listed (block_of self.now.book.now j) clearing.now }
    {
        book::block_stands(self.block(j), clearing) && self.same_kind(j)
    }

    // How many blocks are on its code, where each of them passes: none is asked behind the first that does not.
    // A loop: `filter` and then `try_fold` would say the same in two closures, one of which carries the count.
    fn members_passing<F: Fn(usize) -> bool>(&self, passes: F) -> Option<usize>
        requires { (j : ℕ) → j < 16 → F.pre passes j }
        ensures { (test : ℕ → Bool) → Tells F.Fn passes test → result ≡ passing (on_code self.now.book.now self.now.i) test }
    {
        let mut count: usize = 0;
        for j in 0..in_block::ACCOUNTS {
            if self.on_code(j) {
                if !passes(j) {
                    return None;
                }
                count += 1;
            }
        }
        Some(count)
    }

    // The blocks on its code, by a look at every account.
    // The places go into an array of four with their count, as specs/Members `list_of` builds them: there is no heap for a list.
    fn gathered_members(&self) -> Members
        requires { CodeRanges self.now.book.now self.now.i }
        ensures { result ≡ members_of self.now.book.now self.now.i }
    {
        let own = book::alone(self.book, self.i);
        let kind = own.kind;
        let mut count: usize = 0;
        let mut at = [0usize; 4];
        for j in 0..in_block::ACCOUNTS {
            if self.on_code(j) {
                at[count] = j;
                count += 1;
            }
        }
        Members { kind, count, at }
    }
}

// Whether the code of account i is right. On no code the account's block decides, and no other is looked at.
// The three public questions have one shape, and differ in what is asked of the own block, what of a member, and whether there may be more than four.
pub fn code_right(book: &[i64], i: usize) -> bool
    requires { InBook book.now i }
    ensures { result ≡ code_right book.now i }
{
    let account = Account { book, i };
    if account.on_no_code() {
        return book::block_right(account.own());
    }
    let members = account.members_passing(|j| account.member_right(j));
    members.is_some_and(|count| count <= MOST_MEMBERS)
}

// Whether no block on account i's code has a holding in an unlisted asset.
pub fn code_holds_listed(book: &[i64], i: usize, clearing: &[i64]) -> bool
    requires { InBook book.now i }
    ensures { result ≡ code_holds_listed book.now i clearing.now }
{
    let account = Account { book, i };
    if account.on_no_code() {
        return book::holds_listed(account.own(), clearing);
    }
    let members = account.members_passing(|j| book::holds_listed(account.block(j), clearing));
    members.is_some()
}

// Whether the code of account i is right and no block on it has a holding in an unlisted asset: what refusal 6 asks where tables are lent, in one look.
pub fn code_stands(book: &[i64], i: usize, clearing: &[i64]) -> bool
    requires { InBook book.now i }
    ensures { result ≡ code_right book.now i && code_holds_listed book.now i clearing.now }
{
    let account = Account { book, i };
    if account.on_no_code() {
        return book::block_stands(account.own(), clearing);
    }
    let members = account.members_passing(|j| account.member_stands(clearing, j));
    members.is_some_and(|count| count <= MOST_MEMBERS)
}

// The blocks on the code of account i.
pub fn members_of(book: &[i64], i: usize) -> Members
    requires { CodeRanges book.now i }
    ensures { result ≡ members_of book.now i }
{
    let account = Account { book, i };
    if account.on_no_code() {
        return book::alone(book, i);
    }
    account.gathered_members()
}
