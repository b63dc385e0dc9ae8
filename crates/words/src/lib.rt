// What single words say: document 01, 'Flow'.
#![tactic(auto)]

ghost use Rattle.std.specs.Prelude.{◌≡◌};
ghost use Rattle.flow.specs.Words.{free, test_bit_set, succeeded, ids_fit, level_shown, sums_fit};

use image::Header;
use parts::Geometry;

// Whether a polled word has bits 31 and 28 clear.
#[tactic(auto, unfolding(flow::specs::Words::free))]
pub fn is_free(w: u32) -> bool
    ensures free { result ≡ free w }
{
    w >> 31 == 0 && w >> 28 & 1 == 0
}

// Whether TEST_MODE shows its bit 31 (17).
#[tactic(auto, unfolding(flow::specs::Words::test_bit_set))]
pub fn test_bit_set(w: u32) -> bool
    ensures set { result ≡ test_bit_set w }
{
    w >> 31 == 1
}

// Whether SYSARG says that a call succeeded (19).
#[tactic(auto, unfolding(flow::specs::Words::succeeded))]
pub fn call_succeeded(w: u32) -> bool
    ensures succeeded { result ≡ succeeded w }
{
    w >> 28 == 0xA
}

// Whether the silicon ID in SYSARG and SYSREQ is the image's and fits the part (20).
#[tactic(auto, unfolding(flow::specs::Words::ids_fit))]
pub fn ids_fit(g: Geometry, h: Header, sysarg: u32, sysreq: u32) -> bool
    ensures fits { result ≡ ids_fit g h sysarg sysreq }
{
    let [low, high, ..] = sysarg.to_le_bytes();
    let [family, ..] = sysreq.to_le_bytes();
    high == h.metadata[2] && family == h.metadata[5] && parts::low_fits(g.part, low)
}

// The stored level in the word that step 8 reads, with 0 and 1 exchanged.
#[tactic(auto, unfolding(flow::specs::Words::level_shown))]
pub fn level_shown(w: u32) -> u8
    ensures shown { result ≡ level_shown w }
{
    let [.., top] = w.to_le_bytes();
    match top & 15 {
        0 => 1,
        1 => 0,
        level => level,
    }
}

// Whether the two privileged sums differ by the image's sum.
#[tactic(auto, unfolding(flow::specs::Words::sums_fit))]
pub fn sums_fit(h: Header, this: u32, that: u32) -> bool
    ensures fits { result ≡ sums_fit h this that }
{
    ((this % 0x10000000 + 0x10000000 - that % 0x10000000) % 65536) as u16 == h.sum
}
