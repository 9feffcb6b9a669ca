#![tactic(auto)]

mod feeding;
mod floats;
pub mod gauge;
mod reading;

pub use feeding::{Fed, feed};
pub use floats::Floats;
pub use gauge::Gauge;
pub use reading::receive;

// The phone app's feed (document 02, #102): a report's figures as floats, the gauge of the first screen, and five lent numbers with the floats' bits.
