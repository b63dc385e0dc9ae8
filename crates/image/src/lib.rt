// The image: a header beside lent bytes, and its checks (document 01, 'Parts', numbers 6 to 12).
#![tactic(auto)]

ghost use Rattle.std.specs.Prelude.{not, ◌≡◌, ◌≤◌, length};
ghost use Rattle.image.specs.Checks.{version_fits, image_id_fits, level_fits, sum_fits, content_checks, image_fault};
ghost use Rattle.image.specs.Refusals.{first_refusal};
ghost use Rattle.parts.specs.Sizes.{row_bytes_of, rows_of, flash_size};
ghost use Rattle.refusals.specs.Refusals.{number_in};
ghost use Rattle.rows.specs.Cancels.{some_cancels};

mod handed;

pub use handed::Image;
use parts::{Geometry, Level};
use refusals::Refusal;

// What is known of an image beside its bytes (document 01's 'record' of an image).
#[derive(Clone, Copy)]
pub struct Header {
    pub part: u8,
    pub macros: u8,
    pub sum: u16,
    pub metadata: [u8; 12],
    pub level: u8,
}

impl Header {
    // What stands where there is no header.
    pub const ZERO: Header = Header {
        part: 0,
        macros: 0,
        sum: 0,
        metadata: [0; 12],
        level: 0,
    };
}

// Whether the metadata's version is 2.
pub fn version_fits(h: Header) -> bool
    ensures version { result ≡ version_fits h }
{
    let [high, low, ..] = h.metadata;
    u16::from_be_bytes([high, low]) == 2
}

// Whether the metadata's silicon ID is the part's.
pub fn id_fits(g: Geometry, h: Header) -> bool
    ensures id { result ≡ image_id_fits g h }
{
    let [_, _, high, low, _, family, ..] = h.metadata;
    parts::id_fits(g.part, high, low, family)
}

// Whether a level may be asked for: OPEN, PROTECTED or KILL.
pub fn level_fits(n: u8) -> bool
    ensures level { result ≡ level_fits n }
{
    matches!(
        parts::read_level(n),
        Level::Open | Level::Protected | Level::Kill
    )
}

// Whether the flash adds up to the header's sum.
fn sum_fits(g: Geometry, h: Header, bytes: &[u8]) -> bool
    requires { flash_size g ≤ length bytes.now }
    ensures { result ≡ sum_fits g h bytes.now }
{
    lent::sum_of(&bytes[..parts::flash_size(g)]) == h.sum
}

// Whether no row of the flash cancels.
fn rows_fit(g: Geometry, bytes: &[u8]) -> bool
    ensures { result ≡ not (some_cancels (row_bytes_of g) (rows_of g) bytes.now) }
{
    !rows::some_cancels(bytes, parts::rows(g), usize::from(g.part.row_bytes))
}

// Checks 6 to 10, in that order.
#[tactic(auto, unfolding(crate::specs::Refusals::first_refusal))]
fn check_content(g: Geometry, h: Header, bytes: &[u8]) -> Result<(), Refusal>
    requires { flash_size g ≤ length bytes.now }
    ensures { number_in result ≡ first_refusal (content_checks g h bytes.now) }
{
    if !version_fits(h) {
        return Err(Refusal::Version);
    }
    if !id_fits(g, h) {
        return Err(Refusal::ImageId);
    }
    if !level_fits(h.level) {
        return Err(Refusal::Level);
    }
    if !sum_fits(g, h, bytes) {
        return Err(Refusal::FlashSum);
    }
    if !rows_fit(g, bytes) {
        return Err(Refusal::CancellingRow);
    }
    Ok(())
}

// Checks 11, 12 and 6 to 10, in that order.
#[tactic(auto, unfolding(crate::specs::Refusals::first_refusal, parts::specs::Sizes::image_size))]
pub fn check(h: Header, bytes: &[u8]) -> Result<(), Refusal>
    ensures fault { number_in result ≡ image_fault h bytes.now }
{
    let g = parts::find(h.part, h.macros)?;
    if bytes.len() != parts::image_size(g) {
        return Err(Refusal::Size);
    }
    check_content(g, h, bytes)
}
