// Headers, sessions, outcomes and lengths put into a caller's bytes where they fit, at fixed offsets (include/halzuqeen.h).
// Kept: the C interface: the offsets are those of include/halzuqeen.h.
#![tactic(auto)]

ghost use Rattle.std.specs.Prelude.{◌≡◌, length};
ghost use Rattle.encoding.specs.Buffers.{put_into};
ghost use Rattle.encoding.specs.Outcomes.{eight_bytes, packet_bytes, outcome_bytes, outcome_numbered, number_given};
ghost use Rattle.encoding.specs.Headers.{header_bytes};
ghost use Rattle.encoding.specs.Sessions.{entry_byte, session_bytes};
ghost use Rattle.lent.specs.Words.{low_first};

use flow::{Entry, Packet};
use image::Header;
use layout::flag_byte;
use session::{Outcome, Session};

// Puts a length, the low byte first; `storing::fill` leaves bytes that are too few, here and below.
pub fn put_length(bytes: &mut [u8], n: usize)
    ensures put { bytes.new ≡ put_into bytes.old (low_first 8 n) }
{
    storing::fill(bytes, 0, &n.to_le_bytes(), 0, 8);
}

// The bytes of a header.
#[tactic(auto, unfolding(crate::specs::Headers::header_bytes))]
fn row_of(h: Header) -> [u8; 17]
    ensures equal { result ≡ header_bytes h }
    ensures sized { length (header_bytes h) ≡ 17 }
{
    let mut row = [0u8; 17];
    row[0] = h.part;
    row[1] = h.macros;
    row[2..4].copy_from_slice(&h.sum.to_le_bytes());
    row[4..16].copy_from_slice(&h.metadata);
    row[16] = h.level;
    row
}

// Puts a header.
pub fn put_header(bytes: &mut [u8], h: Header)
    ensures put { bytes.new ≡ put_into bytes.old (header_bytes h) }
{
    let row = row_of(h);
    storing::fill(bytes, 0, &row, 0, 17);
}

// The byte of an entry.
// Kept: no plainer: `From<Entry> for u8` would have to stand in flow, which knows no byte of an entry.
fn entry_byte(y: Entry) -> u8
    ensures { result ≡ entry_byte y }
{
    match y {
        Entry::FromOpen => 0,
        Entry::FromProtected => 1,
    }
}

// The bytes of a session: its words and single bytes, and its header before them.
#[tactic(auto, unfolding(crate::specs::Sessions::session_bytes))]
fn session_row(s: Session) -> [u8; 45]
    ensures equal { result ≡ session_bytes s }
    ensures sized { length (session_bytes s) ≡ 45 }
{
    let mut row = [0u8; 45];
    row[17] = entry_byte(s.position.entry);
    row[18] = flag_byte(s.finished);
    row[19] = s.number;
    row[20] = s.step;
    row[21..25].copy_from_slice(&s.position.at.to_le_bytes());
    row[25..29].copy_from_slice(&s.counters.waits.to_le_bytes());
    row[29..33].copy_from_slice(&s.counters.polls.to_le_bytes());
    row[33..37].copy_from_slice(&s.counters.attempts.to_le_bytes());
    row[37..41].copy_from_slice(&s.counters.kept.to_le_bytes());
    row[41..45].copy_from_slice(&s.transfers.to_le_bytes());
    row[..17].copy_from_slice(&row_of(s.header));
    row
}

// Puts a session.
pub fn put_session(bytes: &mut [u8], s: Session)
    ensures put { bytes.new ≡ put_into bytes.old (session_bytes s) }
{
    let row = session_row(s);
    storing::fill(bytes, 0, &row, 0, 45);
}

// Puts the eight bytes of an outcome.
// Kept: the C interface: its kind is a byte of include/halzuqeen.h, as the definition `outcome_bytes` has it.
fn put_eight(bytes: &mut [u8], kind: u8, first: u8, second: u8, word: u32)
    ensures { bytes.new ≡ put_into bytes.old (eight_bytes kind first second word) }
{
    let [a, b, c, d] = word.to_le_bytes();
    storing::fill(bytes, 0, &[kind, first, second, 0, a, b, c, d], 0, 8);
}

// Puts a packet.
// Kept: no plainer: a closed enum, with bytes of its own for each variant.
fn put_packet(bytes: &mut [u8], p: Packet)
    ensures { bytes.new ≡ put_into bytes.old (packet_bytes p) }
{
    match p {
        Packet::Xres => put_eight(bytes, 1, 0, 0, 0),
        Packet::LineReset => put_eight(bytes, 2, 0, 0, 0),
        Packet::Read(request) => put_eight(bytes, 3, request, 0, 0),
        Packet::Write(request, word, parity) => put_eight(bytes, 4, request, parity, word),
    }
}

// Puts an outcome, a refusal by its number.
pub fn put_outcome(bytes: &mut [u8], o: Result<Outcome, u8>)
    ensures put { bytes.new ≡ put_into bytes.old (outcome_bytes (outcome_numbered o)) }
{
    match o {
        Ok(Outcome::Ask(p)) => put_packet(bytes, p),
        Ok(Outcome::Reported(r)) => put_eight(bytes, 5, r.number, r.step, r.transfers),
        Err(number) => put_eight(bytes, 0, number, 0, 0),
    }
}

// The number of a refusal, and 0 of anything else.
pub fn number_of<T: Copy>(given: Result<T, u8>) -> u32
    ensures number { result ≡ number_given given }
{
    match given {
        Ok(_) => 0,
        Err(number) => u32::from(number),
    }
}
