// Writes the Intel hex text of an image (document 01, 'Hex text').
#![tactic(auto)]

ghost use Rattle.std.specs.Prelude.{◌≡◌, ◌+◌, ◌*◌, ◌/◌, ◌≤◌, ◌<◌, length};
ghost use Rattle.std.proofs.lemmas.List.Edits.{sets};
ghost use Rattle.hex_format.specs.Written.{new_upper, lines_from, text_of, text_length};
ghost use Rattle.hex_writer.specs.Lines.{one_piece, position_after};
ghost use Rattle.hex_writer.specs.Writing.{write_of, text_after};
ghost use Rattle.sections.specs.Sections.{sections_of, header_sections, location_bytes, section_bytes};
ghost use Rattle.parts.specs.Sizes.{flash_size};
ghost use Rattle.text.specs.Writing.{write_answer};
ghost use Rattle.text.specs.Placing.{cut, pieces};
ghost use Rattle.text.specs.Sized.{TableSizes, Sized, Laid, pieces_of};

use image::Header;
use parts::Geometry;
use refusals::Refusal;
use sections::{Location, Section};

// How far the text has come: the next place, and the upper half of the last address.
#[derive(Clone, Copy)]
struct Position {
    at: usize,
    upper: u32,
}

// Puts a type 4 record where the upper half is a new one; the place after it.
fn put_upper(text: &mut [u8], position: Position, upper: u32) -> usize
    requires { (upper < 0x10000) × (position.at + length (new_upper position.upper upper) ≤ length text.old) }
    ensures value { result ≡ position.at + length (new_upper position.upper upper) }
    ensures text_after { text.new ≡ sets text.old position.at (new_upper position.upper upper) }
{
    if upper == position.upper {
        return position.at;
    }
    hex_lines::put_extended(text, position.at, upper as u16);
    position.at + 17
}

// Puts the lines of one piece.
fn put_piece(text: &mut [u8], position: Position, address: u32, payload: &[u8]) -> Position
    requires { (length payload.now ≤ 64) × (1 ≤ length payload.now) × ((position_after position (one_piece address payload.now)).at ≤ length text.old) }
    ensures value { result ≡ position_after position (one_piece address payload.now) }
    ensures text_after { text.new ≡ sets text.old position.at (lines_from position.upper (one_piece address payload.now)) }
{
    let upper = address / 0x10000;
    let at = put_upper(text, position, upper);
    hex_lines::put_data(text, at, (address % 0x10000) as u16, payload);
    Position {
        at: at + 13 + 2 * payload.len(),
        upper,
    }
}

// Puts the lines of a section's pieces.
fn put_section(text: &mut [u8], position: Position, address: u32, bytes: &[u8]) -> Position
    requires { (address + length bytes.now + 64 ≤ 0x100000000) × ((position_after position (cut ((length bytes.now + 63) / 64) address bytes.now)).at ≤ length text.old) }
    ensures value { result ≡ position_after position (cut ((length bytes.now + 63) / 64) address bytes.now) }
    ensures text_after { text.new ≡ sets text.old position.at (lines_from position.upper (cut ((length bytes.now + 63) / 64) address bytes.now)) }
{
    let mut w = position;
    let mut a = address;
    for piece in bytes.chunks(64) {
        w = put_piece(text, w, a, piece);
        a += 64;
    }
    w
}

// Puts the lines of a section, out of the bytes of its location.
fn put_part(text: &mut [u8], position: Position, s: Section, part: &[u8]) -> Position
    requires laid { Laid part.now s }
    requires s_in_bounds { (position_after position (pieces_of part.now s)).at ≤ length text.old }
    ensures value { result ≡ position_after position (pieces_of part.now s) }
    ensures text_after { text.new ≡ sets text.old position.at (lines_from position.upper (pieces_of part.now s)) }
{
    put_section(
        text,
        position,
        s.address,
        &part[s.offset..s.offset + s.size],
    )
}

// Puts the lines of a section that lies in the flash, in the image's part after the flash, or in the header's bytes.
fn put_located(
    text: &mut [u8],
    position: Position,
    s: Section,
    g: Geometry,
    h: Header,
    bytes: &[u8],
) -> Position
    requires g_in_bounds { (flash_size g ≤ length bytes.now) × Laid (location_bytes g bytes.now (header_sections h) s.location) s }
    requires s_in_bounds { (position_after position (pieces_of (location_bytes g bytes.now (header_sections h) s.location) s)).at ≤ length text.old }
    ensures value { result ≡ position_after position (pieces_of (location_bytes g bytes.now (header_sections h) s.location) s) }
    ensures text_after { text.new ≡ sets text.old position.at (lines_from position.upper (pieces_of (location_bytes g bytes.now (header_sections h) s.location) s)) }
{
    let flash = parts::flash_size(g);
    match s.location {
        Location::InFlash => put_part(text, position, s, &bytes[..flash]),
        Location::InProtection => put_part(text, position, s, &bytes[flash..]),
        Location::InHeader => {
            let header = sections::header_sections(h);
            put_part(text, position, s, &header)
        }
    }
}

// Puts the lines of all sections.
// Kept: no plainer: g, h and bytes stand one by one in every definition that these contracts cite, so a struct of them would be taken apart there.
fn put_sections(
    text: &mut [u8],
    position: Position,
    g: Geometry,
    h: Header,
    bytes: &[u8],
) -> Position
    requires sized { Sized g h bytes.now }
    requires g_in_bounds { (position_after position (pieces (section_bytes g h bytes.now) (sections_of g))).at ≤ length text.old }
    ensures value { result ≡ position_after position (pieces (section_bytes g h bytes.now) (sections_of g)) }
    ensures text_after { text.new ≡ sets text.old position.at (lines_from position.upper (pieces (section_bytes g h bytes.now) (sections_of g))) }
{
    let mut w = position;
    for k in 0..5 {
        w = put_located(text, w, sections::section_at(g, k), g, h, bytes);
    }
    w
}

// The length of a section's lines.
fn lines_length(size: usize) -> usize
    requires { size ≤ 33554432 }
    ensures { (result ≡ 17 * ((size + 0xFFFF) / 0x10000) + 13 * ((size + 63) / 64) + 2 * size) × (result ≤ 100000000) }
{
    17 * ((size + 0xFFFF) / 0x10000) + 13 * ((size + 63) / 64) + 2 * size
}

// The length of an image's text.
fn text_length(g: Geometry) -> usize
    requires { TableSizes g }
    ensures { result ≡ text_length g }
{
    let mut sum: usize = 13;
    for k in 0..5 {
        sum += lines_length(sections::section_at(g, k).size);
    }
    sum
}

// Puts the text of an image.
fn put_text(text: &mut [u8], g: Geometry, h: Header, bytes: &[u8])
    requires sized { Sized g h bytes.now }
    requires bytes_in_bounds { length (text_of g h bytes.now) ≤ length text.old }
    ensures { text.new ≡ sets text.old 0 (text_of g h bytes.now) }
{
    hex_lines::put_extended(text, 0, 0);
    let w = put_sections(text, Position { at: 17, upper: 0 }, g, h, bytes);
    hex_lines::put_end(text, w.at);
}

// Writes an image's text into the buffer: the text's length, or a refusal and the buffer as it was.
pub fn write(header: Header, bytes: &[u8], text: &mut [u8]) -> Result<usize, Refusal>
    ensures answer { write_answer result ≡ write_of header bytes.now text.old }
    ensures text { text.new ≡ text_after header bytes.now text.old }
{
    let found = parts::find(header.part, header.macros);
    let g = found?;
    if bytes.len() != parts::image_size(g) {
        return Err(Refusal::Size);
    }
    let n = text_length(g);
    if text.len() < n {
        return Err(Refusal::Size);
    }
    image::check(header, bytes)?;
    put_text(text, g, header, bytes);
    Ok(n)
}
