//! The numbers of a line: `0`, or a digit 1 to 9 and digits after it.
ghost use Rattle.std.specs.Prelude.{◌≡◌, ◌^◌};
ghost use Rattle.dmc_text.specs.Numbers.{is_led, number};

/// Whether a word begins as a number does: with a 0 only if that is the whole word.
fn is_led(word: &[u8]) -> bool
    ensures { result ≡ is_led word.now }
{
    match word {
        [] | [b'0', _, ..] => false,
        _ => true,
    }
}

/// The number of a word, up to 2^64 - 1, read in one pass. `None` if the word is no such number.
pub fn read_u64(word: &[u8]) -> Option<u64>
    ensures { result ≡ number (2 ^ 64) word.now }
{
    if !is_led(word) {
        return None;
    }
    let mut value: u64 = 0;
    for byte in word {
        if !byte.is_ascii_digit() {
            return None;
        }
        value = value.checked_mul(10)?.checked_add(u64::from(byte - b'0'))?;
    }
    Some(value)
}

/// The number of a word, up to 2^128 - 1, read in one pass. `None` if the word is no such number.
pub fn read_u128(word: &[u8]) -> Option<u128>
    ensures { result ≡ number (2 ^ 128) word.now }
{
    if !is_led(word) {
        return None;
    }
    let mut value: u128 = 0;
    for byte in word {
        if !byte.is_ascii_digit() {
            return None;
        }
        value = value.checked_mul(10)?.checked_add(u128::from(byte - b'0'))?;
    }
    Some(value)
}

/// The number of a word, up to 2^32 - 1. `None` if the word is no such number.
pub fn read_u32(word: &[u8]) -> Option<u32>
    ensures { result ≡ number (2 ^ 32) word.now }
{
    u32::try_from(read_u64(word)?).ok()
}
