// The calls for programs in other languages: headers, sessions and outcomes stand in the caller's bytes (include/halzuqeen.h).
#![tactic(auto)]

ghost use Rattle.std.specs.Prelude.{◌≡◌};
ghost use Rattle.calls.specs.Calls.{answer_in, after_read_call, after_write_call, after_start_call, after_step_call};
ghost use Rattle.refusals.specs.Refusals.{number_in};

use decoding::header_in;
use encoding::{number_of, put_header, put_length};
use flow::{Answer, Reply};
use image::Header;
use refusals::Refusal;
use start_call::{start_into, under_size};
use step_call::step_into;

// The answer that a caller names.
fn answer_in(reset: u8, ack: u8, word: u32, parity: u8) -> Answer
    ensures { result ≡ answer_in reset ack word parity }
{
    if reset == 0 {
        Answer::Transferred(Reply { ack, word, parity })
    } else {
        Answer::ResetDone
    }
}

// The number of a refusal, and 0 of anything else: what every call returns.
fn number_in<T: Copy>(given: Result<T, Refusal>) -> u32
    ensures { result ≡ number_in given }
{
    number_of(given.map_err(Refusal::number))
}

// Takes the answer to the standing request; gives the next request or the report.
// Kept: the C interface: include/halzuqeen.h declares these four, so each parameter stands alone, and a number comes back.
#[unsafe(no_mangle)]
pub extern "C" fn halzuqeen_step(
    session: &mut [u8],
    image: &[u8],
    reset_done: u8,
    ack: u8,
    word: u32,
    parity: u8,
    outcome: &mut [u8],
) -> u32
    ensures number { result ≡ (after_step_call session.old image.now (answer_in reset_done ack word parity) outcome.old).number }
    ensures session { session.new ≡ (after_step_call session.old image.now (answer_in reset_done ack word parity) outcome.old).first }
    ensures outcome { outcome.new ≡ (after_step_call session.old image.now (answer_in reset_done ack word parity) outcome.old).second }
{
    let a = answer_in(reset_done, ack, word, parity);
    number_in(step_into(session, image, a, outcome))
}

// Starts a session on an image.
#[unsafe(no_mangle)]
pub extern "C" fn halzuqeen_start(
    header: &[u8],
    image: &[u8],
    leave: u8,
    session: &mut [u8],
    outcome: &mut [u8],
) -> u32
    ensures number { result ≡ (after_start_call header.now image.now leave session.old outcome.old).number }
    ensures session { session.new ≡ (after_start_call header.now image.now leave session.old outcome.old).first }
    ensures outcome { outcome.new ≡ (after_start_call header.now image.now leave session.old outcome.old).second }
{
    number_in(start_into(header, image, leave, session, outcome))
}

// Reads a hex text: the image's bytes and its header.
#[unsafe(no_mangle)]
pub extern "C" fn halzuqeen_read(
    part: u8,
    macros: u8,
    text: &[u8],
    image: &mut [u8],
    header: &mut [u8],
) -> u32
    ensures number { result ≡ (after_read_call part macros text.now image.old header.old).number }
    ensures image { image.new ≡ (after_read_call part macros text.now image.old header.old).first }
    ensures header { header.new ≡ (after_read_call part macros text.now image.old header.old).second }
{
    if header.len() < 17 {
        return number_in::<()>(Err(under_size(part, macros)));
    }
    let read = hex_reader::read(part, macros, text, image);
    put_header(header, read.unwrap_or(Header::ZERO));
    number_in(read)
}

// Writes an image's hex text and its length.
#[unsafe(no_mangle)]
pub extern "C" fn halzuqeen_write(
    header: &[u8],
    image: &[u8],
    text: &mut [u8],
    length: &mut [u8],
) -> u32
    ensures number { result ≡ (after_write_call header.now image.now text.old length.old).number }
    ensures text { text.new ≡ (after_write_call header.now image.now text.old length.old).first }
    ensures length { length.new ≡ (after_write_call header.now image.now text.old length.old).second }
{
    if header.len() < 17 {
        put_length(length, 0);
        return number_in::<()>(Err(Refusal::Size));
    }
    let h = header_in(header);
    if length.len() < 8 {
        return number_in::<()>(Err(under_size(h.part, h.macros)));
    }
    let written = hex_writer::write(h, image, text);
    put_length(length, written.unwrap_or(0));
    number_in(written)
}
