// The part table (document 01, 'Parts'): sizes, addresses and IDs, the look-up by part number and macros, and the chip levels.
#![tactic(auto)]

ghost use Rattle.std.specs.Prelude.{true, ◌≡◌, ◌<◌, ◌^◌};
ghost use Rattle.parts.specs.Parts.{lookup_of, offers, in_range, low_fits, id_fits};
ghost use Rattle.parts.specs.Sizes.{rows_of, flash_size, locks_in, lock_start, lock_total, image_size};
ghost use Rattle.parts.specs.Levels.{level_of, is_level};

use refusals::Refusal;

// Where the words of a listed call are, and the register of step 1.
pub const PARAMS: u32 = 0x20000100;

pub const TEST_MODE: u32 = 0x40030014;

// Where every part's locks start.
const LOCKS: u32 = 0x0FFFF000;

// A range of bytes, both ends included.
#[derive(Clone, Copy)]
pub struct ByteRange {
    pub first: u8,
    pub last: u8,
}

// An entry of the part table.
#[derive(Clone, Copy)]
pub struct Part {
    pub number: u8,
    pub row_bytes: u16,
    pub rows_per_macro: u16,
    pub most_macros: u8,
    pub sysreq: u32,
    // 1 where flash calls need call 0x15 first.
    pub imo: u8,
    pub id_high: u8,
    pub id_family: u8,
    // A low ID byte fits in either range.
    pub id_low: ByteRange,
    pub id_low_or: ByteRange,
    // Where macro 0's locks are, and how much further each next macro's.
    pub locks: u32,
    pub locks_step: u32,
    pub level_word: u32,
}

// A part with the number of flash macros in use.
#[derive(Clone, Copy)]
pub struct Geometry {
    pub part: Part,
    pub macros: u8,
}

// A chip protection level.
#[derive(Clone, Copy)]
pub enum Level {
    Virgin,
    Open,
    Protected,
    Kill,
    Unknown,
}

const PARTS: [Part; 3] = [
    Part {
        number: 1,
        row_bytes: 64,
        rows_per_macro: 256,
        most_macros: 1,
        sysreq: 0x40100004,
        imo: 1,
        id_high: 0x0A,
        id_family: 0x9A,
        id_low: ByteRange {
            first: 0x00,
            last: 0xFF,
        },
        id_low_or: ByteRange {
            first: 0x00,
            last: 0xFF,
        },
        locks: LOCKS,
        locks_step: 0x400,
        level_word: LOCKS + 0x7C,
    },
    Part {
        number: 2,
        row_bytes: 128,
        rows_per_macro: 256,
        most_macros: 1,
        sysreq: 0x40000004,
        imo: 0,
        id_high: 0x04,
        id_family: 0x93,
        id_low: ByteRange {
            first: 0x00,
            last: 0x7F,
        },
        id_low_or: ByteRange {
            first: 0xA0,
            last: 0xFF,
        },
        locks: LOCKS,
        locks_step: 0x400,
        level_word: LOCKS + 0x7C,
    },
    Part {
        number: 3,
        row_bytes: 128,
        rows_per_macro: 512,
        most_macros: 2,
        sysreq: 0x40100004,
        imo: 0,
        id_high: 0x11,
        id_family: 0xA1,
        id_low: ByteRange {
            first: 0x00,
            last: 0xFF,
        },
        id_low_or: ByteRange {
            first: 0x00,
            last: 0xFF,
        },
        locks: LOCKS,
        locks_step: 0x400,
        level_word: LOCKS + 0x7C,
    },
];

// Whether an entry has this number and allows this many macros.
fn entry_offers(p: Part, number: u8, macros: u8) -> bool
    ensures { result ≡ offers p number macros }
{
    p.number == number && 1 <= macros && macros <= p.most_macros
}

// The table's entry for a part number, with the macros in use; 11 for what is not in the table.
pub fn find(number: u8, macros: u8) -> Result<Geometry, Refusal>
    ensures found { result ≡ lookup_of number macros }
{
    for part in PARTS {
        if entry_offers(part, number, macros) {
            return Ok(Geometry { part, macros });
        }
    }
    Err(Refusal::PartOrMacros)
}

impl ByteRange {
    fn contains(self, b: u8) -> bool
        ensures { result ≡ in_range self b }
    {
        self.first <= b && b <= self.last
    }
}

// Whether a low ID byte fits the part.
pub fn low_fits(p: Part, low: u8) -> bool
    ensures fits { result ≡ low_fits p low }
{
    p.id_low.contains(low) || p.id_low_or.contains(low)
}

// Whether a silicon ID is one of the part's.
pub fn id_fits(p: Part, high: u8, low: u8, family: u8) -> bool
    ensures fits { result ≡ id_fits p high low family }
{
    high == p.id_high && family == p.id_family && low_fits(p, low)
}

// The rows of all macros in use.
#[tactic(auto, unfolding(crate::specs::Sizes::rows_of))]
pub fn rows(g: Geometry) -> u32
    ensures count { result ≡ rows_of g }
{
    u32::from(g.macros) * u32::from(g.part.rows_per_macro)
}

// The bytes of flash.
#[tactic(auto, unfolding(crate::specs::Sizes::flash_size))]
pub fn flash_size(g: Geometry) -> usize
    ensures size { result ≡ flash_size g }
    ensures bounded { result < 2 ^ 48 }
{
    (rows(g) as usize) * usize::from(g.part.row_bytes)
}

// The bytes of macro m's locks: a bit for each of its rows.
#[tactic(auto, unfolding(crate::specs::Sizes::locks_in))]
pub fn locks_in(g: Geometry, m: u32) -> usize
    ensures size { result ≡ locks_in g m }
    ensures bounded { result < 8192 }
{
    usize::from(g.part.rows_per_macro) / 8
}

// Where they start among the bytes of locks: past those of the macros below it.
pub fn lock_start(g: Geometry, m: u32) -> usize
    ensures start { result ≡ lock_start g m }
    ensures bounded { result < 2 ^ 45 }
{
    (m as usize) * locks_in(g, 0)
}

// The bytes of locks: a bit for each row.
#[tactic(auto, unfolding(crate::specs::Sizes::lock_total))]
pub fn lock_total(g: Geometry) -> usize
    ensures size { result ≡ lock_total g }
    ensures bounded { result < 2 ^ 32 }
{
    (rows(g) / 8) as usize
}

// The bytes of an image: flash, then locks.
#[tactic(auto, unfolding(crate::specs::Sizes::image_size))]
pub fn image_size(g: Geometry) -> usize
    ensures size { result ≡ image_size g }
{
    flash_size(g) + lock_total(g)
}

// What the number of a level says.
impl From<u8> for Level {
    ghost from_gives = { λ n l. (l ≡ level_of n) × (is_level l n ≡ true) };

    fn from(n: u8) -> Level {
        match n {
            0 => Level::Virgin,
            1 => Level::Open,
            2 => Level::Protected,
            4 => Level::Kill,
            3 | 5..=255 => Level::Unknown,
        }
    }
}

// The reading of a level's number.
pub fn read_level(n: u8) -> Level
    ensures level { result ≡ level_of n }
    ensures told { is_level result n ≡ true }
{
    Level::from(n)
}
