ghost use Rattle.std.specs.Prelude.{◌≡◌, ◌+◌, ◌≤◌};
ghost use Rattle.session_lines.specs.Stream.{longest_line, line_held, grown, frame_held, is_blank};

use crate::sizes::LONGEST_LINE;
use frames::Frame;

// The line that has begun: its first bytes, and how many it has. Of a line that is too long the count is one above the longest line, and what `bytes`
// holds is not said.
// A line that is too long has a count past the longest and is no variant: `Took` and `Session::end` promise of the count (`counted`).
#[derive(Clone, Copy, Debug, PartialEq, Eq)]
pub struct Line {
    pub bytes: [u8; LONGEST_LINE],
    pub count: usize,
}

impl Line {
    // The frame of the line, where it ends here.
    #[tactic(auto, unfolding(crate::specs::Stream::held, crate::specs::Stream::frame_held))]
    pub(crate) fn frame(&self) -> Frame
        ensures { result ≡ frame_held (line_held self.now) }
    {
        if self.count > LONGEST_LINE {
            return Frame::Malformed;
        }
        frames::frame_of(&self.bytes[..self.count])
    }

    // One byte more of the line. Of a line that is too long nothing is written any more, so that a long one costs what reading it does.
    #[tactic(auto, using(crate::proofs::stream::Held::held_more, crate::proofs::stream::Held::held_full))]
    pub(crate) fn hold(&mut self, b: u8)
        ensures grown { line_held self.new ≡ grown (line_held self.old) b }
        ensures counted { self.new.count ≤ longest_line + 1 }
    {
        if self.count < LONGEST_LINE {
            self.bytes[self.count] = b;
            self.count += 1;
        } else if self.count != LONGEST_LINE + 1 {
            self.count = LONGEST_LINE + 1;
        }
    }

    // Whether no byte of it is held.
    #[tactic(auto, using(crate::proofs::stream::Held::blank_held))]
    pub(crate) fn is_blank(&self) -> bool
        ensures { result ≡ is_blank (line_held self.now) }
    {
        self.count == 0
    }
}
