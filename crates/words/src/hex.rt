ghost use Rattle.std.specs.Prelude.{◌≡◌, ℕ, ◌<◌, ◌++◌, IfOk, string_bytes, MatchOption, OnOk, ◌≢◌};
ghost use Rattle.words.specs.Hex.{hex_digit, pair_of, hex_of, Decoded};

use std::alloc::{AllocError, Global};

// The value of a hexadecimal digit, in capitals.
fn digit(byte: u8) -> Option<u8>
    ensures { MatchOption result ((d : ℕ) → d < 16 → hex_digit d ≢ byte) (λ d. (d < 16) × (hex_digit d ≡ byte)) }
{
    match byte {
        b'0'..=b'9' => Some(byte - b'0'),
        b'A'..=b'F' => Some(byte - b'A' + 10),
        _ => None,
    }
}

// The byte whose two digits these are, or none.
fn byte_of(pair: [u8; 2]) -> Option<u8>
    ensures { MatchOption result ((b : ℕ) → b < 256 → pair_of b ≢ pair) (λ b. pair_of b ≡ pair) }
{
    let [high, low] = pair;
    Some(16 * digit(high)? + digit(low)?)
}

// The bytes, one at least, that a word has in hexadecimal capitals, two digits each; none where it has another form.
pub fn from_hex(heap: Global, word: &[u8]) -> Result<Option<Vec<u8>>, AllocError>
    ensures { IfOk result (λ o. Decoded word.now o) }
{
    let (pairs, odd) = word.as_chunks::<2>();
    if pairs.is_empty() || !odd.is_empty() {
        return Ok(None);
    }
    let mut bytes = Vec::new(heap);
    for pair in pairs {
        let Some(byte) = byte_of(*pair) else {
            return Ok(None);
        };
        bytes.push(byte)?;
    }
    Ok(Some(bytes))
}

// The hexadecimal digit of a value, in capitals.
fn digit_of(value: u8) -> char
    requires { value < 16 }
    ensures { result ≡ hex_digit value }
{
    if value < 10 {
        (b'0' + value) as char
    } else {
        (b'A' + (value - 10)) as char
    }
}

// Adds the two digits of a byte to the text.
fn push_byte(text: &mut String, byte: u8) -> Result<(), AllocError>
    ensures { OnOk result (string_bytes text.new ≡ string_bytes text.old ++ pair_of byte) }
{
    text.push(digit_of(byte / 16))?;
    text.push(digit_of(byte % 16))?;
    Ok(())
}

// Adds the bytes to the text in hexadecimal capitals, two digits each.
pub fn to_hex(text: &mut String, bytes: &[u8]) -> Result<(), AllocError>
    ensures { OnOk result (string_bytes text.new ≡ string_bytes text.old ++ hex_of bytes.now) }
{
    for byte in bytes {
        push_byte(text, *byte)?;
    }
    Ok(())
}
