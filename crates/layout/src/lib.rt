// What the calls for other languages put into a caller's bytes: words and flags.
#![tactic(auto)]

ghost use Rattle.std.specs.Prelude.{◌≡◌};
ghost use Rattle.layout.specs.Bytes.{flag_byte, word_put};

// Puts a word, the low byte first; nothing where there is no room for its four bytes.
pub fn put_word(bytes: &mut [u8], at: usize, word: u32)
    ensures put { bytes.new ≡ word_put bytes.old at word }
{
    let end = at.saturating_add(4);
    if end <= bytes.len() {
        bytes[at..end].copy_from_slice(&word.to_le_bytes());
    }
}

// 1 for yes, 0 for no.
pub fn flag_byte(b: bool) -> u8
    ensures flag { result ≡ flag_byte b }
{
    u8::from(b)
}
