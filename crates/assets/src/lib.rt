#![tactic(auto)]

mod collateral;
mod lent;
mod parts;
mod record;
mod risk;

pub use collateral::Regime;
pub use parts::{Part, part_of};
pub use record::{Asset, asset_of, with_record};

// One asset, from collateral to its part of the sums (document 01, "From collateral to limit"): its record is made from the account's kind, the row in
// force and the asset's 17 numbers, and its part of the sums from the row and the record. Records of several blocks are added here; nothing here knows
// of a block, of tables or of other assets.
