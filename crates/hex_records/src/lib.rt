// The records of an Intel hex text, one at a position (document 01, 'Hex text').
#![tactic(auto)]

ghost use Rattle.std.specs.Prelude.{◌≡◌, ◌<◌, length, Err};
ghost use Rattle.hex_records.specs.Places.{FrameAt, frame_of, frame_row, found_in, located, located_of, located_row, FoundAt};

use refusals::Refusal;

// The frame of a line: so many payload bytes, the sum of all its bytes, and where the next line begins.
#[derive(Clone, Copy)]
struct Frame {
    count: usize,
    sum: u32,
    next: usize,
}

// A line's record; its payload is in the row, from index 4 on.
#[derive(Clone, Copy)]
pub enum Found {
    Payload { low: u16, count: usize },
    // The extended linear address: the upper half of the addresses that follow.
    Extended { upper: u16 },
    Ended,
}

// What is found, `None` where no line is, and where the next line begins: 0 where there is no record, for want of a line or by 1 or 2.
#[derive(Clone, Copy)]
pub struct Located {
    pub found: Result<Option<Found>, Refusal>,
    pub next: usize,
}

// The frame of the line at a position, if it has the form of one; its bytes are left in the row.
fn frame_at(text: &[u8], at: usize, row: &mut [u8; 260]) -> Option<Frame>
    requires { at < length text.now }
    ensures frame { FrameAt text.now at result row.new }
    ensures value { result ≡ frame_of text.now at row.old }
    ensures row { row.new ≡ frame_row text.now at row.old }
{
    if text[at] != b':' {
        return None;
    }
    pairs::spell(row, text, at + 1, 1).ok()?;
    let count = usize::from(row[0]);
    let sum = pairs::spell(row, text, at + 1, count + 5).ok()?;
    let end = at + 11 + 2 * count;
    let width = pairs::line_end(text, end);
    if width == 0 {
        return None;
    }
    Some(Frame {
        count,
        sum,
        next: end + width,
    })
}

// The record of a line of right form and sum, by its type.
#[tactic(auto, unfolding(crate::specs::Places::found_of))]
fn typed_in(row: &[u8; 260], count: usize) -> Result<Found, Refusal>
    ensures { result ≡ found_in row.now count }
{
    let low = u16::from_be_bytes([row[1], row[2]]);
    match row[3] {
        0 if 1 <= count => Ok(Found::Payload { low, count }),
        1 if count == 0 && low == 0 => Ok(Found::Ended),
        4 if count == 2 && low == 0 => Ok(Found::Extended {
            upper: u16::from_be_bytes([row[4], row[5]]),
        }),
        0..=255 => Err(Refusal::RecordType),
    }
}

// A line that is refused.
fn refused(refusal: Refusal, next: usize) -> Located
    ensures { result ≡ located (Err refusal) next }
{
    Located {
        found: Err(refusal),
        next,
    }
}

// The record of the line at a position, if there is a line.
pub fn record_at(text: &[u8], at: usize, row: &mut [u8; 260]) -> Located
    ensures record { FoundAt text.now at result.next result.found row.new }
    ensures located { result ≡ located_of text.now at row.old }
    ensures row { row.new ≡ located_row text.now at row.old }
{
    if text.len() <= at {
        return Located {
            found: Ok(None),
            next: 0,
        };
    }
    let Some(frame) = frame_at(text, at, row) else {
        return refused(Refusal::LineForm, 0);
    };
    if frame.sum % 256 != 0 {
        return refused(Refusal::RecordSum, 0);
    }
    match typed_in(row, frame.count) {
        Ok(found) => Located {
            found: Ok(Some(found)),
            next: frame.next,
        },
        Err(refusal) => refused(refusal, frame.next),
    }
}
