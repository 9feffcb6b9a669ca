// The kinds of frames, each a frame's first byte, and the length of the longest (document 01, "Session lines").

// Place and number.
pub(crate) const PARAMETER: u8 = 1;

// Account, its kind and its settlement code.
pub(crate) const OPEN: u8 = 2;

// Account, asset and amount.
pub(crate) const MOVE: u8 = 3;

// Account, asset, date, side, quantity and money.
pub(crate) const ORDER: u8 = 4;

// Account.
pub(crate) const ROLL: u8 = 5;

pub(crate) const REPORT: u8 = 6;

// An order's bytes.
pub(crate) const LONGEST: usize = 21;
