ghost use Rattle.std.specs.Prelude.{◌≡◌, ◌+◌, ◌*◌, ◌/◌, ◌<◌, ◌≤◌, min, ◌++◌, length, take, drop, if◌then◌else◌, Some, None};
ghost use Rattle.tape.specs.Hex.{is_hex, all_hex, hex_value, hex_digit, hex_text, bytes_in};

// The value of an upper-case hexadecimal digit. The crate hex reads lower case too.
fn value(digit: u8) -> Option<u8>
    ensures { result ≡ (if is_hex digit then Some (hex_value digit) else None) }
{
    match digit {
        b'0'..=b'9' => Some(digit - b'0'),
        b'A'..=b'F' => Some(digit - b'A' + 10),
        _ => None,
    }
}

// The byte of two digits, where 0 stands for one that is none.
fn byte_of(high: u8, low: u8) -> u8
    ensures { result ≡ 16 * hex_value high + hex_value low }
{
    16 * value(high).unwrap_or(0) + value(low).unwrap_or(0)
}

// Are all of them upper-case hexadecimal digits?
pub(crate) fn are_hex(digits: &[u8]) -> bool
    ensures { result ≡ all_hex digits.now }
{
    digits.iter().all(|digit| value(*digit).is_some())
}

// The digit of a number below 16. A `write!` of `{:X}` may fail, as far as its contract says.
fn digit(number: u8) -> u8
    requires { number < 16 }
    ensures { result ≡ hex_digit number }
{
    match number {
        0..=9 => b'0' + number,
        _ => b'A' + (number - 10),
    }
}

// Writes two digits for each of the bytes.
pub(crate) fn encode(bytes: &[u8], digits: &mut [u8])
    requires { length digits.old ≡ 2 * length bytes.now }
    ensures { digits.new ≡ hex_text bytes.now }
{
    // By index, since no clause says what writes through `chunks_exact_mut` leave.
    for (i, byte) in bytes.iter().enumerate() {
        digits[2 * i] = digit(byte / 16);
        digits[2 * i + 1] = digit(byte % 16);
    }
}

// Writes the first `count` bytes that the digits stand for.
fn decode_first(count: usize, digits: &[u8], bytes: &mut [u8])
    requires { (count ≤ length digits.now / 2) × (count ≤ length bytes.old) }
    ensures { bytes.new ≡ take count (bytes_in digits.now) ++ drop count bytes.old }
{
    // By index, since no clause says what writes through a zip of `iter_mut` leave.
    for (i, byte) in bytes[..count].iter_mut().enumerate() {
        *byte = byte_of(digits[2 * i], digits[2 * i + 1]);
    }
}

// Writes the bytes that the digits stand for, as many as there is room for, and answers how many.
pub fn decode(digits: &[u8], bytes: &mut [u8]) -> usize
    ensures count { result ≡ min (length digits.now / 2) (length bytes.old) }
    ensures after { bytes.new ≡ take result (bytes_in digits.now) ++ drop result bytes.old }
{
    let count = (digits.len() / 2).min(bytes.len());
    decode_first(count, digits, bytes);
    count
}
