ghost use Rattle.std.specs.Prelude.{◌≡◌};
ghost use Rattle.whole.specs.Codes.{refusal_code, answer_code};

// The codes of document 01's table, "Calls and turning away", and of document 02, by name. specs/Refusals says them again for the definitions.

// Nothing turned the call away.
pub const DONE: u8 = 0;

// What turns a call away, and its number.
#[derive(Clone, Copy, Debug, PartialEq, Eq)]
pub enum Refusal {
    // A lent length is wrong.
    WrongLength = 1,
    // The table check finds a broken number.
    BrokenNumber = 2,
    // The table check finds an own row that is laxer than its clearing row.
    LaxerOwnRow = 13,
    // The account number is not 0 to 15.
    NoAccount = 3,
    // The block or another on its settlement code breaks the block rules or holds something of an unlisted asset, or they are too many or of two kinds.
    BrokenBlock = 6,
    NotOpen = 4,
    AlreadyOpen = 5,
    // An asset, a date, a side or a kind that there is not, or a settlement code that cannot be opened on.
    WrongChoice = 7,
    // A quantity, a sum of money or a move outside its bounds.
    WrongAmount = 8,
    // A number would leave its bounds, a withdrawal would leave collateral below 0, or a figure is too great for the app's floats.
    OutOfBounds = 9,
    // The limit after an order or a withdrawal would be negative.
    NegativeLimit = 10,
    // A session line of no form.
    Malformed = 12,
}

impl From<Refusal> for u8 {
    ghost from_gives = { λ refusal code. code ≡ refusal_code refusal };

    fn from(refusal: Refusal) -> u8 {
        refusal as u8
    }
}

// The code of an answer.
pub fn code(answer: Result<(), Refusal>) -> u8
    ensures { result ≡ answer_code answer }
{
    match answer {
        Ok(()) => DONE,
        Err(refusal) => u8::from(refusal),
    }
}
