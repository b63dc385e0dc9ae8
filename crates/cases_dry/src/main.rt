// Reads texts on standard input and prints, for each, the line of its dry run (tests/vectors/README.md).
#![tactic(auto)]

ghost use Rattle.std.specs.Prelude.{◌≤◌};

use std::io;
use std::io::Read;

fn print_case(rt: &impl Print, text: &[u8]) -> io::Result<()> {
    let mut line = [0u8; 32];
    let k = dry::line_of(text, &mut line);
    rt.write_all(&line[..k])
}

// Takes a text of so many bytes from the input, and prints its line.
fn take_case(rt: &impl Print, input: &mut impl Read, length: usize) -> io::Result<()>
    requires { length ≤ 524288 }
{
    let mut text = cases::filled::<524288>(0);
    cases::read_full(input, &mut text[..length])?;
    // The line feed: a number without digits.
    cases::read_number(input, 0)?;
    print_case(rt, &text[..length])
}

// Reads a case and prints its line; false where the input has ended.
fn next_case(rt: &impl Print, input: &mut impl Read) -> io::Result<bool> {
    let length = cases::read_number(input, 524288)?;
    if length.ended {
        return Ok(false);
    }
    take_case(rt, input, length.value as usize)?;
    Ok(true)
}

// Nothing says that the input ends, so the turns are counted.
// Kept: no plainer: a main for all would take a closure over standard input, of which a public function's contract can say nothing.
fn main(rt: HostRuntime) -> io::Result<()> {
    let mut input = rt.stdin();
    for _ in 0..u64::MAX {
        if !next_case(&rt, &mut input)? {
            break;
        }
    }
    Ok(())
}
