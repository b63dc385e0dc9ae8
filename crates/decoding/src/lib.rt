// Headers and sessions found in a caller's bytes, at fixed offsets (include/halzuqeen.h).
// Kept: the C interface: the offsets are those of include/halzuqeen.h.
#![tactic(auto)]

ghost use Rattle.std.specs.Prelude.{◌≡◌};
ghost use Rattle.encoding.specs.Headers.{header_found};
ghost use Rattle.encoding.specs.Sessions.{entry_in, counters_in, session_found, is_session};

use flow::{Counters, Entry, Position};
use image::Header;
use lent::{byte_at, word_at};
use session::Session;

// The header that bytes hold from their start on, and all 0 where they are too few.
pub fn header_in(bytes: &[u8]) -> Header
    ensures found { result ≡ header_found bytes.now }
{
    let Some(row) = bytes.first_chunk::<17>() else {
        return Header::ZERO;
    };
    let mut metadata = [0u8; 12];
    metadata.copy_from_slice(&row[4..16]);
    Header {
        part: row[0],
        macros: row[1],
        sum: u16::from_le_bytes([row[2], row[3]]),
        metadata,
        level: row[16],
    }
}

// Whether bytes 17 and 18 are ones that a session has; it looks at no other, so it holds of no bytes too.
pub fn is_session(bytes: &[u8]) -> bool
    ensures session { result ≡ is_session bytes.now }
{
    byte_at(bytes, 17) <= 1 && byte_at(bytes, 18) <= 1
}

// The entry that a session's byte says.
// Kept: no plainer: `From<u8> for Entry` would have to stand in flow, which knows no byte of an entry.
fn entry_in(n: u8) -> Entry
    ensures { result ≡ entry_in n }
{
    match n {
        0 => Entry::FromOpen,
        _ => Entry::FromProtected,
    }
}

// The counters that a session's bytes hold.
fn counters_in(bytes: &[u8]) -> Counters
    ensures { result ≡ counters_in bytes.now }
{
    Counters {
        waits: word_at(bytes, 25),
        polls: word_at(bytes, 29),
        attempts: word_at(bytes, 33),
        kept: word_at(bytes, 37),
    }
}

// The session that bytes hold; its header is all 0 where they are too few for one.
pub fn session_in(bytes: &[u8]) -> Session
    ensures found { result ≡ session_found bytes.now }
{
    Session {
        header: header_in(bytes),
        position: Position {
            entry: entry_in(byte_at(bytes, 17)),
            at: word_at(bytes, 21),
        },
        counters: counters_in(bytes),
        transfers: word_at(bytes, 41),
        finished: byte_at(bytes, 18) == 1,
        number: byte_at(bytes, 19),
        step: byte_at(bytes, 20),
    }
}
