ghost use Rattle.rates.specs.Ranges.{RowRanges};
ghost use Rattle.book.specs.Ranges.{HoldingRanges};

// What an asset is read from, where it is lent: a row in force and a holding, each with its numbers in range. Neither is copied. The public functions take
// the numbers alone, as their callers have them, and say in a `requires` that they are in range.

// A row in force, as the table check leaves it. `Row` of rates/in_row is any 64 numbers, this one has them in range.
// Its numbers stay a slice: `asset_of` and `part_of` are handed one, and `RowRanges` says its length.
#[derive(Clone, Copy, Debug, PartialEq, Eq)]
pub(crate) struct Row<'a> {
    pub(crate) numbers: &'a [i64],
    ghost in_range: { RowRanges numbers.now },
}

// The asset's 17 numbers in a block, as the block rules leave them.
#[derive(Clone, Copy, Debug, PartialEq, Eq)]
pub(crate) struct Holding<'a> {
    pub(crate) numbers: &'a [i64],
    ghost in_range: { HoldingRanges numbers.now },
}
