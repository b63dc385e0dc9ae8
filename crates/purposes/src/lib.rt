// Where a word that was heard leads, by the purpose of its move (document 01, 'Flow').
#![tactic(auto)]

ghost use Rattle.std.specs.Prelude.{◌≡◌, suc, ltb};
ghost use Rattle.failures.specs.Failures.{failure_number};
ghost use Rattle.flow.specs.Judge.{judge, go_if, polled, entry_by, row_in, macro_locks};
ghost use Rattle.flow.specs.Words.{free, level_in};
ghost use Rattle.image.specs.Handed.{handed};
ghost use Rattle.lent.specs.Words.{same_word};
ghost use Rattle.parts.specs.Levels.{level_of};

use failures::Failure;
use flow::{Counters, Entry, Next, Purpose, Way};
use image::Image;
use parts::Level;

// On to the next move, or a report.
fn go_if(ok: bool, failure: Failure, c: Counters) -> Next
    ensures { result ≡ go_if ok (failure_number failure) c }
{
    if ok {
        Next::Go(Way::Onward, c)
    } else {
        Next::Stop(failure.number())
    }
}

// Once more from a poll's first transfer, at most 10,000 times.
fn on_poll(c: Counters, w: u32) -> Next
    ensures { result ≡ polled (free w) (ltb (suc c.polls) 10000) c }
{
    if words::is_free(w) {
        Next::Go(Way::Onward, Counters { polls: 0, ..c })
    } else if c.polls < 9999 {
        Next::Go(
            Way::ToPoll,
            Counters {
                polls: c.polls + 1,
                ..c
            },
        )
    } else {
        Next::Stop(Failure::PollLimit.number())
    }
}

// The level in effect, in the word of SYSREQ.
fn level_in(w: u32) -> Level
    ensures { result ≡ level_of (level_in w) }
{
    parts::read_level((w >> 12 & 15) as u8)
}

// The entry by the level in effect, or a report.
fn enter_by(c: Counters, w: u32) -> Next
    ensures { result ≡ entry_by (level_in w) c }
{
    match level_in(w) {
        Level::Open => Next::Go(Way::Enter(Entry::FromOpen), c),
        Level::Protected => Next::Go(Way::Enter(Entry::FromProtected), c),
        _ => Next::Stop(Failure::Level.number()),
    }
}

// Whether a word is the image's at an offset of a row: the row is lent on as a middle part of the flash.
fn flash_word_is(i: Image, row: u32, at: u32, w: u32) -> bool
    ensures { result ≡ same_word (row_in (handed i.entry) row) at w }
{
    let size = usize::from(i.geometry.part.row_bytes);
    let flash = &i.bytes[..parts::flash_size(i.geometry).min(i.bytes.len())];
    lent::part_word_is(flash, row as usize * size, size, at as usize, w)
}

// The same of a macro's locks, in the part after the flash.
// Kept: no plainer: this and `flash_word_is` differ in part, start and size, and what is the same is `lent::part_word_is`.
fn lock_word_is(i: Image, m: u32, at: u32, w: u32) -> bool
    ensures { result ≡ same_word (macro_locks (handed i.entry) m) at w }
{
    let g = i.geometry;
    let locks = &i.bytes[parts::flash_size(g).min(i.bytes.len())..];
    lent::part_word_is(
        locks,
        parts::lock_start(g, m),
        parts::locks_in(g, m),
        at as usize,
        w,
    )
}

// A word, by the purpose of the move that it answers. After reopening the level must be OPEN.
// Kept: no plainer: a closed enum, an arm for each purpose.
#[tactic(auto, unfolding(flow::specs::Judge::judge))]
pub fn on_word(i: Image, u: Purpose, c: Counters, w: u32) -> Next
    ensures judged { result ≡ judge (handed i.entry) u c w }
{
    match u {
        Purpose::Sent => Next::Go(Way::Onward, c),
        Purpose::Idcode => go_if(w == 0x0BB11477, Failure::Idcode, c),
        Purpose::TestBit => go_if(words::test_bit_set(w), Failure::TestMode, c),
        Purpose::Poll => on_poll(c, w),
        Purpose::Status => go_if(words::call_succeeded(w), Failure::CallFailed, c),
        Purpose::Keep => Next::Go(Way::Onward, Counters { kept: w, ..c }),
        Purpose::EntryLevel | Purpose::Reopened
            if !words::ids_fit(i.geometry, i.header, c.kept, w) => {
            Next::Stop(Failure::SiliconId.number())
        }
        Purpose::EntryLevel => enter_by(c, w),
        Purpose::Reopened => go_if(matches!(level_in(w), Level::Open), Failure::Level, c),
        Purpose::FlashWord(row, at) => go_if(flash_word_is(i, row, at, w), Failure::Flash, c),
        Purpose::LockWord(m, at) => go_if(lock_word_is(i, m, at, w), Failure::Locks, c),
        Purpose::StoredLevel => go_if(
            words::level_shown(w) == i.header.level,
            Failure::StoredLevel,
            c,
        ),
        Purpose::LastSum if words::sums_fit(i.header, w, c.kept) => Next::Stop(0),
        Purpose::LastSum => Next::Stop(Failure::Sum.number()),
    }
}
