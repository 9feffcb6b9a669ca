#![tactic(auto)]

mod answer;
mod calls;
mod line;
pub mod sizes;
mod stream;

pub use line::Line;
pub use stream::Session;

// The session of document 01 without input or output: a stream in any pieces, cut into lines, each answered through the engine's calls.
