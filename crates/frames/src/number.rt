ghost use Rattle.std.specs.Prelude.{◌≡◌, length};
ghost use Rattle.frames.specs.Number.{n8_at};

// Numbers as bytes, high first; n8 is two's complement.

// How many bytes write an n8.
pub(crate) const N8: usize = 8;

// The number that an n8 writes.
#[tactic(auto, unfolding(crate::specs::Number::n8_at), using(crate::proofs::Bytes::eight_read))]
pub(crate) fn n8(bytes: &[u8]) -> i64
    requires { length bytes.now ≡ 8 }
    ensures { result ≡ n8_at bytes.now 0 }
{
    i64::from_be_bytes(*bytes.as_array().unwrap())
}
