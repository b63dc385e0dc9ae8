// Intel hex text: reading (document 01, 'Hex text').
#![tactic(auto)]

ghost use Rattle.std.specs.Prelude.{◌≡◌, ◌+◌, ◌≤◌, length, Ok};
ghost use Rattle.hex_format.specs.HexFormat.{intel_hex};
ghost use Rattle.hex_format.specs.Texts.{content_of, hex_reading};
ghost use Rattle.image.specs.Image.{flash_in, protection_in};
ghost use Rattle.sections.specs.Sections.{sections_of};
ghost use Rattle.sections.specs.declared.Location.TheVariants.{InFlash, InProtection, InHeader};
ghost use Rattle.parts.specs.Parts.{lookup_of};
ghost use Rattle.parts.specs.Sizes.{flash_size, image_size};
ghost use Rattle.text.specs.Reading.{judged, read_answer, answer_of, buffer_after};
ghost use Rattle.text.specs.Scanning.{ToFill, advanced_of, filled_in, ScannedAs};

use hex_format::Turn;
use image::Header;
use parts::Geometry;
use refusals::Refusal;
use sections::{Location, Section};
use text::Due;

// What is due after count bytes.
fn advanced(g: Geometry, due: Due, count: usize) -> Due
    requires { (due.section.offset + due.section.size ≤ 131072) × (due.section.address + due.section.size ≤ 0x100000000) × (due.next ≤ 5) × (count ≤ 255) × (count ≤ due.section.size) }
    ensures { result ≡ advanced_of g due count }
{
    let s = due.section;
    if count == s.size {
        return Due {
            section: sections::section_at(g, due.next),
            next: due.next + 1,
        };
    }
    Due {
        section: Section {
            address: s.address + count as u32,
            size: s.size - count,
            offset: s.offset + count,
            ..s
        },
        ..due
    }
}

// Stores payload where the due section lies: lends the section filler the flash, the buffer's part after the flash, or the header's bytes.
fn store_payload(
    g: Geometry,
    image: &mut [u8],
    header: &mut [u8],
    due: Section,
    row: &[u8; 260],
    count: usize,
)
    requires { flash_size g ≤ length image.old }
    ensures flash { flash_in g image.new ≡ filled_in due row.now 4 count InFlash (flash_in g image.old) }
    ensures protection { protection_in g image.new ≡ filled_in due row.now 4 count InProtection (protection_in g image.old) }
    ensures header { header.new ≡ filled_in due row.now 4 count InHeader header.old }
{
    let flash = parts::flash_size(g);
    match due.location {
        Location::InFlash => storing::fill(&mut image[..flash], due.offset, row, 4, count),
        Location::InProtection => storing::fill(&mut image[flash..], due.offset, row, 4, count),
        Location::InHeader => storing::fill(header, due.offset, row, 4, count),
    }
}

// Puts the payload of a text's records where their sections lie.
fn scan(g: Geometry, text: &[u8], image: &mut [u8], header: &mut [u8; 15]) -> Result<(), Refusal>
    requires { ToFill g image.old header.old }
    ensures { ScannedAs intel_hex text.now g result image.new header.new }
{
    let mut row = [0u8; 260];
    let mut at = 0;
    let mut upper = 0;
    let mut due = Due {
        section: sections::section_at(g, 0),
        next: 1,
    };
    loop {
        match hex_format::turn_at(text, at, upper, due.section, &mut row)? {
            Turn::Done => return Ok(()),
            Turn::Moved { next, upper: new } => {
                at = next;
                upper = new;
            }
            Turn::Store { count, next } => {
                store_payload(g, image, header, due.section, &row, count);
                due = advanced(g, due, count);
                at = next;
            }
        }
    }
}

// Reads a text into an image of its size.
fn read_image(
    g: Geometry,
    part: u8,
    macros: u8,
    text: &[u8],
    image: &mut [u8],
) -> Result<Header, Refusal>
    requires { (lookup_of part macros ≡ Ok g) × (length image.old ≡ image_size g) }
    ensures answer { read_answer result ≡ answer_of (judged g part macros (content_of text.now (sections_of g))) }
    ensures image { image.new ≡ buffer_after (judged g part macros (content_of text.now (sections_of g))) image.old }
{
    let mut header = [0u8; 15];
    match scan(g, text, image, &mut header) {
        Ok(()) => text::settle(part, macros, header, image),
        Err(r) => {
            image.fill(0);
            Err(r)
        }
    }
}

// Reads a text for a part and its macros into a buffer: the image's header, or why it is refused.
pub fn read(part: u8, macros: u8, text: &[u8], buffer: &mut [u8]) -> Result<Header, Refusal>
    ensures answer { read_answer result ≡ answer_of (hex_reading part macros text.now (length buffer.old)) }
    ensures buffer { buffer.new ≡ buffer_after (hex_reading part macros text.now (length buffer.old)) buffer.old }
{
    let g = parts::find(part, macros)?;
    let size = parts::image_size(g);
    // Kept: not proved: by `buffer.get_mut(..size)` nothing is known of the buffer afterwards.
    if buffer.len() < size {
        return Err(Refusal::Size);
    }
    read_image(g, part, macros, text, &mut buffer[..size])
}
