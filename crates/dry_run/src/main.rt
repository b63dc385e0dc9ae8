// Document 01, 'The dry run program': reads part 1's text on standard input, up to 64 KiB, and prints the line of its dry run.
#![tactic(auto)]

use std::io;

fn main(rt: HostRuntime) -> io::Result<()> {
    let mut input = rt.stdin();
    let mut text = [0u8; 65536];
    let n = cases::read_full(&mut input, &mut text)?;
    let mut line = [0u8; 32];
    let k = dry::line_of(&text[..n], &mut line);
    rt.write_all(&line[..k])
}
