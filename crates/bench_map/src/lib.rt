// What is at an address, by flow's address map, searched in its order; and what a DRW transfer there is to the board.
#![tactic(auto)]

ghost use Rattle.std.specs.Prelude.{◌&&◌, ◌≡◌, ◌+◌, eqb, leb, ltb};
ghost use Rattle.flow.specs.Exchange.{guarded, is_call, is_sysreq, over_drw};
ghost use Rattle.flow.specs.Map.{search, lock_regions, place};
ghost use Rattle.parts.specs.Sizes.{macros_of};

use flow::{Place, Request};
use parts::{Geometry, Level, PARAMS, TEST_MODE};

// Whether an address lies in `size` bytes from `start` on.
// Kept: no plainer: `(start..start + size).contains(&a)` could pass usize, since nothing is asked of the two.
fn covers(start: usize, size: usize, a: usize) -> bool
    ensures { result ≡ (leb start a && ltb a (start + size)) }
{
    start <= a && a - start < size
}

// The locks of each macro.
fn lock_place(g: Geometry, a: usize) -> Place
    ensures { result ≡ search (lock_regions g 0 (macros_of g)) a }
{
    for m in 0..u32::from(g.macros) {
        let start = g.part.locks as usize + m as usize * g.part.locks_step as usize;
        if covers(start, parts::locks_in(g, m), a) {
            return Place::InLocks(parts::lock_start(g, m) + (a - start));
        }
    }
    Place::Elsewhere
}

// What is at an address.
// Kept: no plainer: each region gives another Place, in the map's order, and only the locks are many of one kind.
#[tactic(auto, unfolding(flow::specs::Map::search, flow::specs::Map::regions))]
pub fn place_of(g: Geometry, address: u32) -> Place
    ensures place { result ≡ place g address }
{
    let p = g.part;
    let a = address as usize;
    let sysreq = p.sysreq as usize;
    let params = PARAMS as usize;
    if a < parts::flash_size(g) {
        return Place::InFlash(a);
    }
    if covers(sysreq, 4, a) {
        return Place::AtSysreq;
    }
    if covers(sysreq + 4, 4, a) {
        return Place::AtSysarg;
    }
    if covers(TEST_MODE as usize, 4, a) {
        return Place::AtTestMode;
    }
    if covers(params, 8 + usize::from(p.row_bytes), a) {
        return Place::InParams((a - params) / 4);
    }
    if covers(p.level_word as usize, 4, a) {
        return Place::AtLevel;
    }
    lock_place(g, a)
}

// Whether PROTECTED in effect answers FAULT: flash and PARAMS are shut to DRW.
pub fn bars(effect: u8, q: Request, at: Place) -> bool
    ensures barred { result ≡ (eqb effect 2 && over_drw q && guarded at) }
{
    matches!(parts::read_level(effect), Level::Protected)
        && matches!(q, Request::ReadDrw | Request::WriteDrw(_))
        && matches!(at, Place::InFlash(_) | Place::InParams(_))
}

// Whether a word written starts a call.
pub fn is_call(w: u32, at: Place) -> bool
    ensures call { result ≡ (is_call w && is_sysreq at) }
{
    0x80000000 <= w && matches!(at, Place::AtSysreq)
}
