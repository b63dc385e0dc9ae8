// The lines that are printed.
use session::Report;
use std::io;

// Kept: no plainer: the number that is printed is a refusal's, or 0 where none was due.
pub(crate) fn print_refusal(rt: &impl Print, n: u8) -> io::Result<()> {
    println!(rt; "refused {n}")
}

pub(crate) fn print_report(rt: &impl Print, r: Report, digest: u64) -> io::Result<()> {
    let Report {
        number,
        step,
        transfers,
    } = r;
    println!(rt; "report {number} {step} {transfers} {digest:016x}")
}
