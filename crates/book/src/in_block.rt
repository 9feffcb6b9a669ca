ghost use Rattle.std.specs.Prelude.{◌≡◌, ◌<◌};
ghost use Rattle.book.specs.Block.{holding_of};

use rates::units;

// Where each number of the book, of a block and of a holding stands, and its bounds (document 01, "Block"). specs/Block names them for the
// definitions.

// Accounts, and numbers of a holding, of a block and of a book.
pub const ACCOUNTS: usize = 16;

pub const HOLDING_LENGTH: usize = OBLIGATIONS + units::DATE_COUNT;

pub const LENGTH: usize = HOLDINGS + HOLDING_LENGTH * units::ASSET_COUNT;

pub const BOOK_LENGTH: usize = LENGTH * ACCOUNTS;

// A holding, and a block.
pub type Holding = [i64; HOLDING_LENGTH];

pub type Block = [i64; LENGTH];

// In a block: the account's kind, ruble collateral with the eight ruble nets behind it, up to RUBLES_END, and the settlement code.
pub const ACCOUNT_KIND: usize = 0;

pub const RUBLE_COLLATERAL: usize = 1;

pub const RUBLE_NETS: usize = 2;

pub const RUBLES_END: usize = 10;

pub const SETTLEMENT_CODE: usize = 13;

// The first of sixteen holdings; that of asset a stands at HOLDINGS + HOLDING_LENGTH * a.
pub const HOLDINGS: usize = 16;

// The holding of asset a.
pub(crate) fn holding_of<'a>(block: &'a Block, a: usize) -> &'a Holding
    requires { a < 16 }
    ensures { result.now ≡ holding_of block.now a }
{
    let at = HOLDINGS + HOLDING_LENGTH * a;
    block[at..at + HOLDING_LENGTH].as_array().unwrap()
}

// In a holding.
pub const COLLATERAL: usize = 0;

pub const CLAIMS: usize = 1;

pub const OBLIGATIONS: usize = 9;

// The asset that stands for rubles in a move: a number among the others, as the calls of C name it, and specs/Changes says of every number what a move
// of it adds to.
pub const RUBLES: usize = 255;

// The kinds of an open account: ordinary, pool, pool of the list.
pub const FIRST_KIND: i64 = 1;

pub const LAST_KIND: i64 = 3;

// The settlement codes are 1 up to this one; 0 is none.
pub const LAST_SETTLEMENT_CODE: i64 = 15;

// Bounds: of rubles, and of units of an asset.
pub const MOST_RUBLES: i64 = 100000000000000;

pub const MOST_UNITS: i64 = 1000000;
