ghost use Rattle.std.specs.Prelude.{◌≡◌, false, true, ◌*◌, ◌<◌, ◌≤◌, length, take, MatchOption};
ghost use Rattle.frames.specs.Hex.{digit_value, is_hex, bytes_of};

// Lower-case hexadecimal to the bytes that it writes.

// How many values a digit has.
pub(crate) const BASE: u8 = 16;

// The value of a digit. `char::to_digit` takes upper case too.
#[tactic(auto, unfolding(crate::specs::Hex::digit_value))]
fn digit_value(b: u8) -> Option<u8>
    ensures { MatchOption result (digit_value b ≡ 16) (λ v. (v ≡ digit_value b) × (v < 16)) }
{
    match b {
        b'0'..=b'9' => Some(b - b'0'),
        b'a'..=b'f' => Some(b - b'a' + 10),
        _ => None,
    }
}

// The bytes of a line that writes whole bytes, at the start of `bytes`; how many there are.
// It answers how many bytes and lends none of them: the caller has the buffer.
pub(crate) fn unhex(line: &[u8], bytes: &mut [u8]) -> Option<usize>
    requires { length line.now ≤ 2 * length bytes.old }
    ensures { MatchOption result (is_hex line.now ≡ false)
        (λ n. (is_hex line.now ≡ true) × (n ≤ length bytes.new) × (take n bytes.new ≡ bytes_of line.now)) }
{
    let (pairs, odd) = line.as_chunks::<2>();
    if !odd.is_empty() {
        return None;
    }
    // Of what is written through a zipped `bytes.iter_mut()` the check knows nothing, so `bytes` goes by its index.
    for (k, [high, low]) in pairs.iter().enumerate() {
        let high = digit_value(*high)?;
        let low = digit_value(*low)?;
        bytes[k] = high * BASE + low;
    }
    Some(pairs.len())
}
