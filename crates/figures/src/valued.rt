ghost use Rattle.book.specs.Members.{MemberRanges};

use book::Members;

// The blocks that are valued together: the members whose blocks they are, and the book in which these stand, with their numbers in range.
#[derive(Clone, Copy, Debug, PartialEq, Eq)]
pub(crate) struct Valued<'a> {
    pub(crate) book: &'a [i64],
    pub(crate) members: Members,
    ghost in_range: { MemberRanges book.now members },
}
