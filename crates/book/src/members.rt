ghost use Rattle.std.specs.Prelude.{◌≡◌, ◌<◌};
ghost use Rattle.whole.specs.Bounds.{◌upto◌};
ghost use Rattle.book.specs.Block.{block_of, account_kind};
ghost use Rattle.book.specs.AtAccount.{InBook};
ghost use Rattle.book.specs.Members.{most_members, member_at, alone_at, MemberRanges};

use crate::{accounts, in_block};

// The blocks that are valued together: a short list by value, so that no block is copied and the book is lent once.

// The kind that the members share, and their places in the book: the first `count` numbers of `at`. No heap holds a list, and specs/Members adds over
// these fields; the kind is a number, since the definitions of assets say of every number what it counts.
#[derive(Clone, Copy, Debug, PartialEq, Eq)]
pub struct Members {
    pub kind: usize,
    pub count: usize,
    pub at: [usize; 4],
}

// An account alone.
// The cast loses nothing: a kind is 0 to 3, which the `requires` says.
pub fn alone(book: &[i64], i: usize) -> Members
    requires { InBook book.now i × (account_kind (block_of book.now i) upto 3) }
    ensures { result ≡ alone_at book.now i }
{
    let block = accounts::block_of(book, i);
    let kind = block[in_block::ACCOUNT_KIND] as usize;
    Members {
        kind,
        count: 1,
        at: [i, 0, 0, 0],
    }
}

// The place of member k. Every number is read at a constant place: a list that is read at a computed one is first copied to memory, at each look.
fn place_of(members: Members, k: usize) -> usize
    requires { k < most_members }
    ensures { result ≡ member_at members k }
{
    let at = members.at;
    match k {
        0 => at[0],
        1 => at[1],
        2 => at[2],
        _ => at[3],
    }
}

// The block of member k.
pub fn member_block<'a>(book: &'a [i64], members: Members, k: usize) -> &'a [i64]
    requires { MemberRanges book.now members × (k < members.count) }
    ensures { result.now ≡ block_of book.now (member_at members k) }
{
    let j = place_of(members, k);
    accounts::block_of(book, j)
}
