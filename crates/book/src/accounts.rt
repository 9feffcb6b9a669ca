ghost use Rattle.std.specs.Prelude.{◌≡◌, length};
ghost use Rattle.book.specs.Block.{block_length, block_of};
ghost use Rattle.book.specs.Changes.{opened, traded, moved};
ghost use Rattle.book.specs.Roll.{rolled};
ghost use Rattle.book.specs.Ranges.{Bounded, Tradable, Movable};
ghost use Rattle.book.specs.AtAccount.{at_account, InBook};

use crate::changes::Trade;
use crate::in_block::{Block, LENGTH};
use crate::{changes, rolling};

// One account's block in the book: lent to be read, or changed where it stands. No other file says where a block begins. What changes a block cuts it
// out itself: a function that lent it to be changed would get no generated proof of what it leaves in the book.

// The block of an account.
pub fn block_of<'a>(book: &'a [i64], i: usize) -> &'a Block
    requires { InBook book.now i }
    ensures { (result.now ≡ block_of book.now i) × (length result.now ≡ block_length) }
{
    book[LENGTH * i..LENGTH * (i + 1)].as_array().unwrap()
}

// Open it on a settlement code; kind 0 and code 0 take the opening of an empty block back.
pub fn open_in(book: &mut [i64], i: usize, kind: i64, code: i64)
    requires { InBook book.old i }
    ensures { book.new ≡ at_account book.old i (λ b. opened b kind code) }
{
    changes::open(&mut book[LENGTH * i..LENGTH * (i + 1)], kind, code);
}

// Move collateral of it; the same with the amount turned round takes the move back.
pub fn move_in(book: &mut [i64], i: usize, asset: usize, amount: i64)
    requires { InBook book.old i × Movable (block_of book.old i) asset amount }
    ensures { book.new ≡ at_account book.old i (λ b. moved b asset amount) }
{
    changes::move_collateral(&mut book[LENGTH * i..LENGTH * (i + 1)], asset, amount);
}

// Book a trade in it; the same with the trade reversed takes it back.
pub fn trade_in(book: &mut [i64], i: usize, t: Trade)
    requires { InBook book.old i × Tradable (block_of book.old i) t }
    ensures { book.new ≡ at_account book.old i (λ b. traded b t) }
{
    changes::book_trade(&mut book[LENGTH * i..LENGTH * (i + 1)], t);
}

// Roll it.
pub fn roll_in(book: &mut [i64], i: usize)
    requires { InBook book.old i × Bounded (block_of book.old i) }
    ensures { book.new ≡ at_account book.old i rolled }
{
    rolling::roll(&mut book[LENGTH * i..LENGTH * (i + 1)]);
}
