use crate::in_row;

// Units and sizes (document 01). specs/Units names them for the definitions.

// Hundredths of a percent in the whole.
pub const WHOLE: i64 = 10000;

// The bound of prices, of concentration limits, and of how far a date's numbers stand from its mid.
pub const TEN_MILLION: i64 = 10000000;

// The bound of a group's discount percent.
pub const MOST_PERCENT: i64 = 50;

pub const ASSET_COUNT: usize = 16;

pub const DATE_COUNT: usize = 8;

pub const GROUP_COUNT: usize = 8;

// Numbers of a table.
pub const TABLE_LENGTH: usize = in_row::LENGTH * ASSET_COUNT;

pub type Table = [i64; TABLE_LENGTH];

// The discount percent of each group.
pub type Groups = [i64; GROUP_COUNT];

// Places of the table check: the clearing table from 0 on, the own table, the groups, and their count.
pub const OWN: usize = TABLE_LENGTH;

pub const GROUPS: usize = 2 * TABLE_LENGTH;

pub const PLACES: usize = GROUPS + GROUP_COUNT;
