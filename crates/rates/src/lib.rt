#![tactic(auto)]

mod cover;
mod dates;
mod in_force;
pub mod in_row;
mod pieces;
mod row;
mod stricter;
mod tables;
pub mod units;

pub use cover::covers;
pub use in_force::{is_listed, row_in_force, row_of_sound};
pub use tables::{Fault, Tables, check_tables};

// Risk rates: are the lent tables sound and own rows only stricter, where is the first number that is not, which row is in force, does a row cover
// a deposit. Every function of this face but `row_of_sound` takes any lengths and any numbers.
