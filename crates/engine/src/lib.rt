#![tactic(auto)]

mod gate;
mod moving;
mod opening;
mod ordering;
mod reporting;
mod rolling;

pub use moving::{move_collateral, move_stands};
pub use opening::open;
pub use ordering::{order, order_stands};
pub use rates::{Fault, Tables};
pub use reporting::{check_tables, report};
pub use rolling::roll;

// The six calls of document 01, and every code of an order or a move before 10 for what stands above the engine. Each takes any account, table
// or number and answers; bad input is turned away by a refusal, in the document's order, and a refusal changes nothing. A call first works out its
// code, of what it was lent and only reads, and then makes its one change; nothing is computed after the first refusal. An order and a withdrawal
// are booked, and taken back where the limit with them is negative; a block is opened, and closed again where its settlement code is not right with it.
// Every block of the account's settlement code is read; its own alone is written.
