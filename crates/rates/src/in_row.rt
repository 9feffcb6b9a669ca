// Where each number of a row stands (document 01, "Row"), for every crate that reads one. specs/Row names them for the definitions.

// Numbers of a row.
pub const LENGTH: usize = 64;

pub type Row = [i64; LENGTH];

// 1 security, 2 currency or metal, 3 commodity, 0 unlisted.
pub const KIND: usize = 0;

pub const PRICE: usize = 1;

pub const ACCEPTANCE_SHARE: usize = 2;

pub const POOL_SHARE: usize = 3;

// 0 recorded, 1 not recorded, 2 partial.
pub const COVERED_SALES: usize = 4;

pub const SPECIAL_DELIVERY: usize = 5;

// Rates by side, of a fall and then of a rise: the base rate of a side stands at BASE_RATES + the side.
pub const FALL: usize = 0;

pub const RISE: usize = 1;

pub const BASE_RATES: usize = 6;

pub const RAISED_RATES: usize = 8;

pub const MARKET_LIMIT: usize = 10;

pub const INTEREST_LIMIT: usize = 11;

pub const SPREAD_GROUP: usize = 12;

// Three numbers without a meaning, which are zero.
pub const SPARE: usize = 13;

// The eight dates, and the numbers of each; `mid of date d` stands at DATES + DATE_LENGTH * d + MID.
pub const DATES: usize = 16;

pub const DATE_LENGTH: usize = 5;

pub const MID: usize = 0;

pub const LOW: usize = 1;

pub const UP: usize = 2;

pub const OUTER_LOW: usize = 3;

pub const OUTER_UP: usize = 4;

// From here on a row is zero.
pub const REST: usize = 56;
