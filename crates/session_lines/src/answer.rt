ghost use Rattle.std.specs.Prelude.{◌≡◌, []};
ghost use Rattle.whole.specs.Codes.{answer_code};
ghost use Rattle.frames.specs.Answer.{answer_line, Wrote};
ghost use Rattle.engine.specs.Report.{reported_as};
ghost use Rattle.session_lines.specs.Session.{report_line, answered};
ghost use Rattle.session_lines.specs.Stream.{memory_of};

use crate::calls;
use crate::stream::Session;
use figures::Figures;
use frames::{Answers, Frame};
use whole::Refusal;

// A frame answered: its call, and the line of its answer.

// A code alone.
fn put_code(answers: &mut Answers<'_>, answer: Result<(), Refusal>)
    ensures { Wrote answers.old answers.new (answer_line (answer_code answer) []) }
{
    answers.put_answer(whole::code(answer), &[]);
}

// A report's code and figures; zeros where it was turned away.
fn put_report(answers: &mut Answers<'_>, answer: Result<Figures<i64>, Refusal>)
    ensures { Wrote answers.old answers.new (report_line (reported_as answer)) }
{
    match answer {
        Ok(found) => answers.put_answer(whole::code(Ok(())), &found.five()),
        Err(refusal) => answers.put_answer(u8::from(refusal), &[0; 5]),
    }
}

impl Session {
    // What a frame leaves in memory, and the line of its answer.
    #[tactic(auto, unfolding(crate::specs::Session::answered))]
    pub(crate) fn answer(&mut self, frame: Frame, answers: &mut Answers<'_>)
        ensures kept { memory_of self.new ≡ (answered (memory_of self.old) frame).memory }
        ensures said { Wrote answers.old answers.new (answered (memory_of self.old) frame).line }
        ensures held { self.new.line ≡ self.old.line }
    {
        match frame {
            Frame::Parameter { place, number } => put_code(
                answers,
                calls::set_parameter(&mut self.parameters, place, number),
            ),
            Frame::Open {
                account,
                kind,
                code,
            } => put_code(answers, calls::open(&mut self.book, account, kind, code)),
            Frame::Move(line) => put_code(
                answers,
                calls::move_collateral(&mut self.book, &self.parameters, line),
            ),
            Frame::Order(line) => put_code(
                answers,
                calls::order(&mut self.book, &self.parameters, line),
            ),
            Frame::Roll { account } => put_code(answers, calls::roll(&mut self.book, account)),
            Frame::Report { account } => put_report(
                answers,
                calls::report(&self.book, &self.parameters, account),
            ),
            Frame::Malformed => put_code(answers, Err(Refusal::Malformed)),
        }
    }
}
