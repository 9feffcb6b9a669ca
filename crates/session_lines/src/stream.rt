ghost use Rattle.std.specs.Prelude.{◌≡◌, ◌+◌, ◌≤◌, length};
ghost use Rattle.session_lines.specs.Stream.{longest_line, stream_of, fed_in, fed, Took, ended};
ghost use Rattle.session_lines.specs.HoweverCut.{fresh};

use crate::line::Line;
use crate::sizes::{LONGEST_ANSWER, LONGEST_LINE, PARAMETERS};
use book::in_block::BOOK_LENGTH;
use frames::{Answers, NEWLINE};

// The stream, in any pieces.

// What memory holds between two bytes of it.
#[derive(Debug, PartialEq, Eq, Drop)]
pub struct Session {
    pub book: [i64; BOOK_LENGTH],
    pub parameters: [i64; PARAMETERS],
    pub line: Line,
}

impl Session {
    // An empty book, all-zero tables, and no line that has begun.
    #[tactic(auto, unfolding(crate::specs::Session::start, crate::specs::Stream::held))]
    pub fn new() -> Session
        ensures { stream_of result ≡ fresh }
    {
        Session {
            book: [0; BOOK_LENGTH],
            parameters: [0; PARAMETERS],
            line: Line {
                bytes: [0; LONGEST_LINE],
                count: 0,
            },
        }
    }

    // Takes bytes of a piece until it ends, or a line ends whose answer may have no room; how many it took.
    pub fn feed(&mut self, piece: &[u8], answers: &mut Answers<'_>) -> usize
        ensures fed { fed_in result self.new answers.new ≡ fed (fed_in 0 self.old answers.old) piece.now }
        ensures took { Took self.old self.new answers.old answers.new result piece.now }
    {
        for (used, b) in piece.iter().enumerate() {
            if *b != NEWLINE {
                self.line.hold(*b);
                continue;
            }
            if answers.room() < LONGEST_ANSWER {
                return used;
            }
            let frame = self.line.frame();
            self.answer(frame, answers);
            self.line.count = 0;
        }
        piece.len()
    }

    // The end of the input: a line that has begun ends, though its newline lacks, and 1 is answered. Where none has begun, or there is no room for the
    // longest answer, nothing is done and 0 is answered.
    // It answers a count, as `feed` does: the clause `ended` has it as what was used of a piece of one newline.
    #[tactic(auto, unfolding(crate::specs::Stream::ended))]
    pub fn end(&mut self, answers: &mut Answers<'_>) -> usize
        ensures ended { fed_in result self.new answers.new ≡ ended (fed_in 0 self.old answers.old) }
        ensures same { answers.new.out.ghost_name ≡ answers.old.out.ghost_name }
        ensures long { length answers.new.out.now ≡ length answers.old.out.now }
        ensures inside { answers.old.at ≤ length answers.old.out.now → answers.new.at ≤ length answers.new.out.now }
        ensures counted { self.old.line.count ≤ longest_line + 1 → self.new.line.count ≤ longest_line + 1 }
    {
        if self.line.is_blank() {
            return 0;
        }
        self.feed(&[NEWLINE], answers)
    }
}
