//! Octets as hexadecimal digits, two each. No loop has a branch on an octet, so that the compiler
//! takes many octets at a time.

ghost use Rattle.std.specs.Prelude.{◌≡◌, ◌<◌, ◌*◌, Ok, Some, IsTrue, IsOk, is_ok, length, slice_index};
ghost use Rattle.std.specs.List.{list_all};
ghost use Rattle.hex.specs.Hex.{decode_of, encode_lower, hex_digit_value, is_hex_digit, lower_digits};

/// Whether a word spells octets.
pub fn spells_octets(word: &[u8]) -> bool
    ensures { result ≡ is_ok (decode_of word.now) }
{
    word.len() % 2 == 0 && are_hex_digits(word)
}

/// Whether each octet is a digit, in either case.
fn are_hex_digits(word: &[u8]) -> bool
    ensures { result ≡ list_all is_hex_digit word.now }
{
    let mut all = true;
    for octet in word {
        all &= is_digit(*octet);
    }
    all
}

/// Whether an octet is a digit, in either case.
#[inline(always)]
fn is_digit(octet: u8) -> bool
    ensures { result ≡ is_hex_digit octet }
{
    matches!(octet, b'0'..=b'9' | b'A'..=b'F' | b'a'..=b'f')
}

/// Writes the octets that a word spells.
pub fn decode(word: &[u8], octets: &mut [u8])
    requires spelled { IsOk (decode_of word.now) }
    requires room { length word.now ≡ 2 * length octets.old }
    ensures { decode_of word.now ≡ Ok octets.new }
{
    'pairs: for i in 0..octets.len() {
        octets[i] = worth(word[2 * i]) * 16 + worth(word[2 * i + 1]);
    }
}

/// What a digit is worth.
#[inline(always)]
fn worth(digit: u8) -> u8
    requires { IsTrue (is_hex_digit digit) }
    ensures value { hex_digit_value digit ≡ Some result }
    ensures small { result < 16 }
{
    let zero = if digit <= b'9' {
        b'0'
    } else if digit <= b'F' {
        b'A' - 10
    } else {
        b'a' - 10
    };
    digit - zero
}

/// Writes the digits of octets, in lower case.
pub fn encode(octets: &[u8], digits: &mut [u8])
    requires { length digits.old ≡ 2 * length octets.now }
    ensures { digits.new ≡ encode_lower octets.now }
{
    'pairs: for i in 0..octets.len() {
        let octet = octets[i];
        digits[2 * i] = digit(octet / 16);
        digits[2 * i + 1] = digit(octet % 16);
    }
}

/// The digit that is worth so much.
#[inline(always)]
fn digit(worth: u8) -> u8
    requires { worth < 16 }
    ensures { result ≡ slice_index lower_digits worth }
{
    let zero = if worth < 10 { b'0' } else { b'a' - 10 };
    worth + zero
}
