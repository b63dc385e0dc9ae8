// Reads cases of hex text on standard input and prints, for each, what hex_reader::read gives (tests/vectors/README.md).
#![tactic(auto)]

ghost use Rattle.std.specs.Prelude.{◌≤◌};

use image::Header;
use refusals::Refusal;
use std::io::Read;
use std::{fmt, io};

// A header, as the line of a case ends with it.
#[derive(Clone, Copy)]
struct Fields(Header);

impl fmt::Display for Fields {
    fn fmt<W: fmt::Write>(&self, f: &mut fmt::Formatter<W>) -> fmt::Result {
        let Header {
            part,
            macros,
            sum,
            metadata,
            level,
        } = self.0;
        write!(f, "{part} {macros} {sum} ")?;
        for b in metadata {
            write!(f, "{b:02x}")?;
        }
        write!(f, " {level}")
    }
}

// The line of a case: the number, the digest of the whole buffer and, where the text is taken, the header.
fn print_line(rt: &impl Print, read: Result<Header, Refusal>, digest: u64) -> io::Result<()> {
    match read {
        Ok(header) => {
            let fields = Fields(header);
            println!(rt; "0 {digest:016x} {fields}")
        }
        Err(refusal) => {
            let number = refusal.number();
            println!(rt; "{number} {digest:016x}")
        }
    }
}

// Reads a text into the first `room` bytes of a fresh buffer, and prints what that gives.
fn print_case(rt: &impl Print, part: u8, macros: u8, room: usize, text: &[u8]) -> io::Result<()>
    requires { room ≤ 139264 }
{
    let mut buffer = cases::filled::<139264>(165);
    let read = hex_reader::read(part, macros, text, &mut buffer[..room]);
    print_line(rt, read, cases::digest(&buffer))
}

// Takes a text of so many bytes from the input, and prints its line.
fn take_case(
    rt: &impl Print,
    input: &mut impl Read,
    part: u8,
    macros: u8,
    room: usize,
    length: usize,
) -> io::Result<()>
    requires { (room ≤ 139264) × (length ≤ 524288) }
{
    let mut text = cases::filled::<524288>(0);
    cases::read_full(input, &mut text[..length])?;
    // The line feed: a number without digits.
    cases::read_number(input, 0)?;
    print_case(rt, part, macros, room, &text[..length])
}

// Reads a case and prints its line; false where the input has ended.
fn next_case(rt: &impl Print, input: &mut impl Read) -> io::Result<bool> {
    let part = cases::read_number(input, 255)?;
    let macros = cases::read_number(input, 255)?;
    let room = cases::read_number(input, 139264)?;
    let length = cases::read_number(input, 524288)?;
    if length.ended {
        return Ok(false);
    }
    take_case(
        rt,
        input,
        part.value as u8,
        macros.value as u8,
        room.value as usize,
        length.value as usize,
    )?;
    Ok(true)
}

// Nothing says that the input ends, so the turns are counted.
// Kept: no plainer: a main for all would take a closure over standard input, of which a public function's contract can say nothing.
fn main(rt: HostRuntime) -> io::Result<()> {
    let mut input = rt.stdin();
    for _ in 0..u64::MAX {
        if !next_case(&rt, &mut input)? {
            break;
        }
    }
    Ok(())
}
