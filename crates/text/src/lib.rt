// What the text formats share beside lines and digit pairs: the section that is due, the pieces it is written in, and the answer of reading
// (document 01, 'Hex text').
#![tactic(auto)]

ghost use Rattle.std.specs.Prelude.{◌≡◌, min, ◌+◌};
ghost use Rattle.text.specs.Reading.{read_answer, answer_of, buffer_after};
ghost use Rattle.text.specs.Settling.{settled};

use image::Header;
use refusals::Refusal;
use sections::Section;

// The section that is due, and the number of the one after it.
#[derive(Clone, Copy)]
pub struct Due {
    pub section: Section,
    pub next: usize,
}

// Checks an image that was read: its header, or what is wrong with it and zeros in its place.
pub fn settle(part: u8, macros: u8, header: [u8; 15], image: &mut [u8]) -> Result<Header, Refusal>
    ensures answer { read_answer result ≡ answer_of (settled part macros header image.old) }
    ensures image { image.new ≡ buffer_after (settled part macros header image.old) image.old }
{
    let h = sections::header_of(part, macros, header);
    match image::check(h, image) {
        Ok(()) => Ok(h),
        Err(r) => {
            image.fill(0);
            Err(r)
        }
    }
}

// Where the piece that starts at `from` ends: after 64 bytes, or at the section's end.
pub fn piece_end(from: usize, size: usize) -> usize
    ensures end { result ≡ min (from + 64) size }
{
    from.saturating_add(64).min(size)
}
