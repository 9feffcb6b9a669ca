ghost use Rattle.std.specs.Prelude.{◌≡◌};
ghost use Rattle.frames.specs.Frame.{frame_of, line_frame};

use crate::number::{N8, n8};
use crate::{hex, in_frame};

// A line of a session as a frame. Its numbers are bytes of any value: the engine's calls turn away what there is not.

#[derive(Clone, Copy, Debug, PartialEq, Eq)]
pub struct MoveNumbers {
    pub account: u8,
    pub asset: u8,
    pub amount: i64,
}

#[derive(Clone, Copy, Debug, PartialEq, Eq)]
pub struct OrderNumbers {
    pub account: u8,
    pub asset: u8,
    pub date: u8,
    pub side: u8,
    pub quantity: i64,
    pub money: i64,
}

// Every byte is let through, and the engine answers 3 or 7 for what there is not.
#[derive(Clone, Copy, Debug, PartialEq, Eq)]
pub enum Frame {
    Parameter { place: usize, number: i64 },
    Open { account: u8, kind: u8, code: u8 },
    Move(MoveNumbers),
    Order(OrderNumbers),
    Roll { account: u8 },
    Report { account: u8 },

    // A line of no form: one more frame, as in specs/Frame `line_frame`, and no None.
    Malformed,
}

// The frame that bytes write.
#[tactic(auto, using(crate::proofs::Shapes::forms))]
fn read_frame(bytes: &[u8]) -> Frame
    ensures { result ≡ frame_of bytes.now }
{
    match bytes {
        [in_frame::PARAMETER, high, low, number @ ..] if number.len() == N8 => Frame::Parameter {
            place: usize::from(u16::from_be_bytes([*high, *low])),
            number: n8(number),
        },
        [in_frame::OPEN, account, kind, code] => Frame::Open {
            account: *account,
            kind: *kind,
            code: *code,
        },
        [in_frame::MOVE, account, asset, amount @ ..] if amount.len() == N8 => {
            Frame::Move(MoveNumbers {
                account: *account,
                asset: *asset,
                amount: n8(amount),
            })
        }
        [in_frame::ORDER, account, asset, date, side, numbers @ ..] if numbers.len() == 2 * N8 => {
            Frame::Order(OrderNumbers {
                account: *account,
                asset: *asset,
                date: *date,
                side: *side,
                quantity: n8(&numbers[..N8]),
                money: n8(&numbers[N8..]),
            })
        }
        [in_frame::ROLL, account] => Frame::Roll { account: *account },
        [in_frame::REPORT, account] => Frame::Report { account: *account },
        _ => Frame::Malformed,
    }
}

// The frame of a line, given without its newline. No line longer than the longest frame's digits has a form.
#[tactic(auto, unfolding(crate::specs::Frame::line_frame), using(crate::proofs::Shapes::long_line))]
pub fn frame_of(line: &[u8]) -> Frame
    ensures { result ≡ line_frame line.now }
{
    if line.len() > 2 * in_frame::LONGEST {
        return Frame::Malformed;
    }
    let mut bytes = [0u8; in_frame::LONGEST];
    match hex::unhex(line, &mut bytes) {
        Some(count) => read_frame(&bytes[..count]),
        None => Frame::Malformed,
    }
}
