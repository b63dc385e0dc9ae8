// Words and sums of lent bytes, near their end too (document 01, 'Words have the low byte first').
#![tactic(auto)]

ghost use Rattle.std.specs.Prelude.{◌≡◌, ◌+◌, ◌*◌, ◌%◌, ◌<◌, slice_index};
ghost use Rattle.lent.specs.Words.{total, word_at, same_word, part_of};

// The byte at an offset, and 0 past the end.
pub fn byte_at(bytes: &[u8], at: usize) -> u8
    ensures byte { result ≡ slice_index bytes.now at }
{
    bytes.get(at).copied().unwrap_or(0)
}

// The word at an offset; bytes past the end count as 0.
pub fn word_at(bytes: &[u8], at: usize) -> u32
    ensures word { result ≡ word_at bytes.now at }
{
    let Some(rest) = bytes.get(at..) else {
        return 0;
    };
    match *rest {
        [a, b, c, d, ..] => u32::from_le_bytes([a, b, c, d]),
        [a, b, c] => u32::from_le_bytes([a, b, c, 0]),
        [a, b] => u32::from_le_bytes([a, b, 0, 0]),
        [a] => u32::from(a),
        [] => 0,
    }
}

// Whether the word at an offset of a row, or of a macro's locks, is this one.
pub fn word_is(row: &[u8], at: usize, word: u32) -> bool
    ensures same { result ≡ same_word row.now at word }
{
    word == word_at(row, at)
}

// The same of the part of n bytes that starts at an offset, as far as there are any: it is lent on as a middle part.
pub fn part_word_is(bytes: &[u8], from: usize, n: usize, at: usize, word: u32) -> bool
    ensures same { result ≡ same_word (part_of bytes.now from n) at word }
{
    let from = from.min(bytes.len());
    let end = from.saturating_add(n).min(bytes.len());
    word_is(&bytes[from..end], at, word)
}

// The sum of bytes, modulo 2^32.
pub fn whole_sum(bytes: &[u8]) -> u32
    ensures sum { result ≡ total bytes.now % 0x100000000 }
{
    bytes
        .iter()
        .fold(0u32, |sum, b| sum.wrapping_add(u32::from(*b)))
}

// The sum of bytes, modulo 65536.
pub fn sum_of(bytes: &[u8]) -> u16
    ensures sum { result ≡ total bytes.now % 65536 }
{
    (whole_sum(bytes) % 65536) as u16
}
