#![tactic(auto)]

mod answer;
mod frame;
mod hex;
mod in_frame;
mod number;

pub use answer::{Answers, NEWLINE};
pub use frame::{Frame, MoveNumbers, OrderNumbers, frame_of};

// Session lines of document 01: a line's bytes to a frame, and an answer to its line. Both take any input.
