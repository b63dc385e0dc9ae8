// Intel hex as a format: where the record at a position leads (document 01, 'Hex text').
#![tactic(auto)]

ghost use Rattle.std.specs.Prelude.{◌≡◌, ◌≤◌};
ghost use Rattle.hex_format.specs.Turns.{data_turn, end_turn, turn_of, TurnAt};
ghost use Rattle.hex_records.specs.Places.{located_row};

use hex_records::{Found, Located};
use refusals::Refusal;
use sections::Section;

// What a record leads to: the end, a new upper half, or payload for the section that is due.
#[derive(Clone, Copy)]
pub enum Turn {
    Done,
    Moved { next: usize, upper: u16 },
    Store { count: usize, next: usize },
}

// Payload that is the next due, and crosses neither its section's end nor a 64 KiB line.
#[tactic(auto, unfolding(crate::specs::Turns::data_turn))]
fn data_turn(due: Section, upper: u16, low: u16, count: usize, next: usize) -> Result<Turn, Refusal>
    requires { count ≤ 255 }
    ensures { result ≡ data_turn due upper low count next }
{
    if 0x10000 < usize::from(low) + count
        || 0x10000 * u32::from(upper) + u32::from(low) != due.address
        || due.size < count
    {
        return Err(Refusal::DataPlace);
    }
    Ok(Turn::Store { count, next })
}

// The end record, after the last section and with nothing after it.
#[tactic(auto, unfolding(crate::specs::Turns::end_turn))]
fn end_turn(due: Section, next: usize, len: usize) -> Result<Turn, Refusal>
    ensures { result ≡ end_turn due next len }
{
    if due.size == 0 && next == len {
        Ok(Turn::Done)
    } else {
        Err(Refusal::EndRecord)
    }
}

// What the record at a position leads to.
pub fn turn_at(
    text: &[u8],
    at: usize,
    upper: u16,
    due: Section,
    row: &mut [u8; 260],
) -> Result<Turn, Refusal>
    ensures turn { TurnAt text.now at upper due result row.new }
    ensures found { result ≡ turn_of text.now at upper due row.old }
    ensures row { row.new ≡ located_row text.now at row.old }
{
    let Located { found, next } = hex_records::record_at(text, at, row);
    match found?.ok_or(Refusal::EndRecord)? {
        Found::Payload { low, count } => data_turn(due, upper, low, count, next),
        Found::Extended { upper: new } => Ok(Turn::Moved { next, upper: new }),
        Found::Ended => end_turn(due, next, text.len()),
    }
}
