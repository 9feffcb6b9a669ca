ghost use Rattle.std.specs.Prelude.{◌≡◌, [], ◌∷◌, ◌+◌, ◌-◌, ◌*◌, ◌≤◌, ◌<◌, length, take};
ghost use Rattle.frames.specs.Hex.{digit_of, hex_of};
ghost use Rattle.frames.specs.Answer.{figure_bytes, answer_line, Puts, Wrote};

use crate::hex;

// Answers in a buffer, one line after another.

pub const NEWLINE: u8 = b'\n';

// Bytes of a line without figures, and of a figure.
const SHORTEST: usize = 3;

const FIGURE: usize = 16;

// The digit of a value. `char::from_digit` goes by way of u32, char and an option that is never None.
#[tactic(auto, unfolding(crate::specs::Hex::digit_of))]
fn digit(v: u8) -> u8
    requires { v < 16 }
    ensures { result ≡ digit_of v }
{
    match v {
        0..=9 => b'0' + v,
        _ => b'a' - 10 + v,
    }
}

// A buffer, and the place past what is written in it: no heap holds a growing list, and `written_in` of the definitions names both.
#[derive(Drop)]
pub struct Answers<'a> {
    pub out: &'a mut [u8],
    pub at: usize,
}

impl<'a> Answers<'a> {
    pub fn new(out: &'a mut [u8]) -> Answers<'a>
        ensures same { result.out.ghost_name ≡ out.entry.ghost_name }
        ensures bytes { result.out.now ≡ out.old }
        ensures at { result.at ≡ 0 }
    {
        Answers { out, at: 0 }
    }

    // The bytes that can still be written.
    pub fn room(&self) -> usize
        ensures { result ≡ length self.now.out.now - self.now.at }
    {
        self.out.len().saturating_sub(self.at)
    }

    // What is written; of a place past the buffer, which nothing that is put comes to, the whole buffer.
    pub fn written(&self) -> &[u8]
        ensures { result.now ≡ take self.now.at self.now.out.now }
    {
        &self.out[..self.at.min(self.out.len())]
    }

    fn put(&mut self, text: &[u8])
        requires { self.old.at + length text.now ≤ length self.old.out.now }
        ensures { Puts self.old self.new (length text.now) text.now }
    {
        let next = self.at + text.len();
        self.out[self.at..next].copy_from_slice(text);
        self.at = next;
    }

    // Bytes, each as its two digits.
    fn put_bytes(&mut self, bytes: &[u8])
        requires { self.old.at + 2 * length bytes.now ≤ length self.old.out.now }
        ensures { Puts self.old self.new (2 * length bytes.now) (hex_of bytes.now) }
    {
        for b in bytes {
            self.put(&[digit(*b / hex::BASE), digit(*b % hex::BASE)]);
        }
    }

    // The figures, each as n8. They are put through a struct of this function's own: of one that is lent the compiler reads the place and the
    // buffer anew after each byte, and a refused report took a third longer.
    fn put_figures(&mut self, figures: &[i64])
        requires { self.old.at + 16 * length figures.now ≤ length self.old.out.now }
        ensures { Puts self.old self.new (16 * length figures.now) (hex_of (figure_bytes figures.now)) }
    {
        let mut line = Answers {
            out: &mut *self.out,
            at: self.at,
        };
        for figure in figures {
            line.put_bytes(&figure.to_be_bytes());
        }
        self.at = line.at;
    }

    // An answer's line: the code, the figures and the newline. Where there is no room for the whole line nothing is written.
    // The code comes as the byte that the line writes: `answer_line` of the definitions takes a number, and this crate knows of no refusals.
    pub fn put_answer(&mut self, code: u8, figures: &[i64])
        ensures { Wrote self.old self.new (answer_line code figures.now) }
    {
        let room = self.room();
        if room < SHORTEST {
            return;
        }
        if (room - SHORTEST) / FIGURE < figures.len() {
            return;
        }
        self.put_bytes(&[code]);
        self.put_figures(figures);
        self.put(&[NEWLINE]);
    }
}
