#![tactic(auto)]

mod joint;
mod limit;
mod sums;
mod valued;

pub use limit::{Figures, joint_figures};
pub use sums::Totals;

// From collateral to limit (document 01): the five figures of one to four blocks that are valued together (4.11), under the lent tables, one asset's part
// at a time. No row and no block is copied, and the sums are added up where they stand.
