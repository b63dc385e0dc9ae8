// The five sections of an image's text, for every text format (document 01, 'Hex text').
#![tactic(auto)]

ghost use Rattle.std.specs.Prelude.{◌≡◌, get_or};
ghost use Rattle.sections.specs.Sections.{sections_of, no_section, header_sections, header_of};

use image::Header;
use parts::Geometry;

// Where the bytes of a section lie: in the image's flash, in the image's part after the flash, or in the header's bytes.
#[derive(Clone, Copy, PartialEq, Eq, Debug)]
pub enum Location {
    InFlash,
    InProtection,
    InHeader,
}

// A section of a text: its address, its size, and where its bytes lie.
#[derive(Clone, Copy, PartialEq, Eq, Debug)]
pub struct Section {
    pub address: u32,
    pub size: usize,
    pub location: Location,
    pub offset: usize,
}

impl Section {
    fn new(address: u32, size: usize, location: Location, offset: usize) -> Section
        ensures { result ≡ record { address = address; size = size; location = location; offset = offset } }
    {
        Section {
            address,
            size,
            location,
            offset,
        }
    }
}

// The k-th section of an image's text, and an empty one past the last.
pub fn section_at(g: Geometry, k: usize) -> Section
    ensures section { result ≡ get_or (sections_of g) k no_section }
{
    match k {
        0 => Section::new(0, parts::flash_size(g), Location::InFlash, 0),
        1 => Section::new(0x90300000, 2, Location::InHeader, 0),
        2 => Section::new(0x90400000, parts::lock_total(g), Location::InProtection, 0),
        3 => Section::new(0x90500000, 12, Location::InHeader, 2),
        4 => Section::new(0x90600000, 1, Location::InHeader, 14),
        _ => Section::new(0, 0, Location::InFlash, 0),
    }
}

// What a text says of a header: sum (high byte first), metadata, level.
pub fn header_sections(h: Header) -> [u8; 15]
    ensures bytes { result ≡ header_sections h }
{
    let mut bytes = [0u8; 15];
    bytes[..2].copy_from_slice(&h.sum.to_be_bytes());
    bytes[2..14].copy_from_slice(&h.metadata);
    bytes[14] = h.level;
    bytes
}

// The header that such bytes make.
pub fn header_of(part: u8, macros: u8, b: [u8; 15]) -> Header
    ensures header { result ≡ header_of part macros b }
{
    let mut metadata = [0u8; 12];
    metadata.copy_from_slice(&b[2..14]);
    Header {
        part,
        macros,
        sum: u16::from_be_bytes([b[0], b[1]]),
        metadata,
        level: b[14],
    }
}
