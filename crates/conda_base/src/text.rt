// Text in buffers of a fixed size, which takes no memory, and digits.
ghost use Rattle.std.specs.Prelude.{◌≡◌, ◌+◌, ◌<◌, ◌≤◌, ◌++◌, length};
ghost use Rattle.std.specs.Fmt.{decimal};
ghost use Rattle.std.specs.List.{list_all};
ghost use Rattle.arrayvec.specs.ArrayVec.{array_vec_len};
ghost use Rattle.conda_base.specs.Digits.{is_digit, is_numeral, hex_digit, hex_word};

use arrayvec::ArrayVec;
use itoa::Buffer;

/// Appends bytes that the buffer has room for.
pub fn push_bytes<const N: usize>(out: &mut ArrayVec<u8, N>, bytes: &[u8])
    requires { array_vec_len out.old + length bytes.now ≤ N }
    ensures text { out.new.items ≡ out.old.items ++ bytes.now }
    ensures len { array_vec_len out.new ≡ array_vec_len out.old + length bytes.now }
{
    let _fits = out.try_extend_from_slice(bytes);
}

/// Appends a number in decimal digits, with no leading zeros. It has 20 digits at most.
pub fn push_decimal<const N: usize>(out: &mut ArrayVec<u8, N>, n: u64)
    requires { array_vec_len out.old + length (decimal n) ≤ N }
    ensures text { out.new.items ≡ out.old.items ++ decimal n }
    ensures len { array_vec_len out.new ≡ array_vec_len out.old + length (decimal n) }
{
    let mut buffer = Buffer::new();
    push_bytes(out, buffer.format(n).as_bytes());
}

/// One of the digits 0 to 9.
pub fn is_decimal(byte: u8) -> bool
    ensures { result ≡ is_digit byte }
{
    byte >= b'0' && byte <= b'9'
}

/// Whether each byte is one of the digits 0 to 9.
pub fn are_digits(text: &[u8]) -> bool
    ensures { result ≡ list_all is_digit text.now }
{
    text.iter().all(|byte| is_decimal(*byte))
}

/// Whether bytes are a decimal number with no leading zeros.
pub fn is_numeral(text: &[u8]) -> bool
    ensures { result ≡ is_numeral text.now }
{
    !text.is_empty() && are_digits(text) && (text.len() == 1 || text[0] != b'0')
}

/// A lower-case hexadecimal digit.
pub fn digit_of(value: u32) -> u8
    requires { value < 16 }
    ensures { result ≡ hex_digit value }
{
    if value < 10 {
        b'0' + value as u8
    } else {
        b'a' + (value as u8 - 10)
    }
}

/// The eight hexadecimal digits of a word.
#[tactic(auto, unfolding(crate::specs::Digits::hex_word))]
pub fn word_digits(word: u32) -> [u8; 8]
    ensures { result ≡ hex_word word }
{
    [
        digit_of(word / 0x1000_0000 % 16),
        digit_of(word / 0x100_0000 % 16),
        digit_of(word / 0x10_0000 % 16),
        digit_of(word / 0x1_0000 % 16),
        digit_of(word / 0x1000 % 16),
        digit_of(word / 0x100 % 16),
        digit_of(word / 0x10 % 16),
        digit_of(word % 16),
    ]
}
