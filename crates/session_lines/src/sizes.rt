use rates::units;

// The sizes of a session, as specs/Session and specs/Stream name them for the definitions.

// Numbers of both tables and the groups: the clearing table, from OWN on the own table, from GROUPS on the groups.
pub const PARAMETERS: usize = units::PLACES;

pub const OWN: usize = units::OWN;

pub const GROUPS: usize = units::GROUPS;

// Digits of the longest frame, an order.
pub const LONGEST_LINE: usize = 42;

// Bytes of the longest answer, a report's.
pub const LONGEST_ANSWER: usize = 83;
