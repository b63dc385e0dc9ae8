// Reads the cases on standard input (crates/cases_session/stdin), plays each session against a board and prints its report (tests/vectors/README.md).
#![tactic(auto)]

mod answering;
mod digest;
mod filling;
mod play;
mod printing;
mod reading;

use std::io;
use std::io::Read;

// Reads a case and prints its line; false where the input has ended.
fn next_case(rt: &impl Print, input: &mut impl Read) -> io::Result<bool> {
    let part = cases::read_number(input, 255)?;
    if part.ended {
        return Ok(false);
    }
    let c = reading::read_case(input, part.value as u8)?;
    let mut image = cases::filled::<131200>(0);
    filling::fill(&mut image, c.seed);
    let size = (c.length as usize).min(131200);
    play::print_case(rt, c, &image[..size])?;
    Ok(true)
}

// Nothing says that the input ends, so the turns are counted.
// Kept: no plainer: a main for all would take a closure over standard input, of which a public function's contract can say nothing.
fn main(rt: HostRuntime) -> io::Result<()> {
    let mut input = rt.stdin();
    for _ in 0..u64::MAX {
        if !next_case(&rt, &mut input)? {
            break;
        }
    }
    Ok(())
}
