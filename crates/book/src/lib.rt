#![tactic(auto)]

mod accounts;
mod changes;
pub mod in_block;
mod members;
mod rolling;
mod rules;
mod terms;

pub use accounts::{block_of, move_in, open_in, roll_in, trade_in};
pub use changes::{Trade, move_fits, reversed, trade_fits};
pub use members::{Members, alone, member_block};
pub use rolling::roll_fits;
pub use rules::{block_right, block_stands, holds_listed, is_empty};
pub use terms::{
    Terms, amounts_right, asset_right, choice_right, is_rubles, move_amount_right, trade_of,
};

// The book of sixteen accounts: where an account's block stands, the block rules, the numbers that an order or a move may name, what open, a move, a
// trade and a roll leave in a block, and the list of blocks that are valued together. A function that changes the book says what every number of it is
// afterwards.
