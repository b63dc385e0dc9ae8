// A session played to its report, on the board of its part.
ghost use Rattle.std.specs.Prelude.{◌≤◌};

use crate::reading::{Case, Override};
use crate::{answering, digest, printing};
use bench_board::Met;
use bench_calls::{CallOutcome, Registers};
use bench_memory::{Memory, Residue};
use flow::{Answer, Packet};
use parts::Geometry;
use session::{Given, Outcome, Session};
use std::io;

// A session, its board's registers and its standing request; none once the session has ended.
#[derive(Clone, Copy)]
struct Bench {
    registers: Registers,
    session: Session,
    packet: Option<Packet>,
    digest: u64,
    transfers: u32,
}

fn transfers_after(transfers: u32, packet: Packet) -> u32 {
    transfers.wrapping_add(u32::from(digest::is_transfer(packet)))
}

// What stands after a step.
fn bench_after(given: Given, registers: Registers, digest: u64, transfers: u32) -> Bench {
    let ended = Bench {
        registers,
        session: given.session,
        packet: None,
        digest,
        transfers,
    };
    match given.outcome {
        Ok(Outcome::Ask(packet)) => Bench {
            packet: Some(packet),
            ..ended
        },
        Ok(Outcome::Reported(_)) => ended,
        Err(_) => Bench { digest: 0, ..ended },
    }
}

// The step with the answer that is heard.
fn stepped(
    bench: Bench,
    packet: Packet,
    met: Met,
    put: Option<Override>,
    image: &[u8],
    turn: u32,
) -> Bench {
    let Bench {
        session,
        transfers,
        ..
    } = bench;
    let a = answering::heard(put, met.answer);
    let h = digest::after_request(bench.digest, session, image, packet, a, turn);
    let given = session::step(session, image, a);
    bench_after(given, met.registers, h, transfers_after(transfers, packet))
}

// Steps to the report; the turns are counted, for nothing here says that it comes.
fn played(
    first: Bench,
    g: Geometry,
    overrides: [Option<Override>; 2],
    image: &[u8],
    flash: &mut [u8],
    locks: &mut [u8],
    latch: &mut [u8],
    params: &mut [u32],
) -> Bench {
    let mut bench = first;
    for turn in 0..4000000000u32 {
        let Some(packet) = bench.packet else {
            break;
        };
        let put = answering::override_of(overrides, packet, bench.transfers);
        let e = answering::line_at(put);
        // Past the calls' list a call succeeds without busy reads; the rest counts where XRES drops it.
        let o = CallOutcome::calm(0xF0000001);
        let memory = Memory {
            flash,
            locks,
            latch,
            params,
        };
        let nothing = Residue {
            flash: b"",
            locks: b"",
            latch: b"",
        };
        let met = bench_board::meet(g, bench.registers, memory, nothing, packet, e, o);
        bench = stepped(bench, packet, met, put, image, turn);
    }
    bench
}

// One step more after the report: what it gives is printed.
fn print_last(rt: &impl Print, bench: Bench, image: &[u8]) -> io::Result<()> {
    match session::step(bench.session, image, Answer::ResetDone).outcome {
        Ok(Outcome::Reported(r)) => printing::print_report(rt, r, bench.digest),
        Ok(Outcome::Ask(_)) => printing::print_refusal(rt, 0),
        Err(refusal) => printing::print_refusal(rt, refusal.number()),
    }
}

// The sizes of a board's memory.
#[derive(Clone, Copy)]
struct Sizes {
    flash: usize,
    locks: usize,
    latch: usize,
    params: usize,
}

fn sizes_of(g: Geometry) -> Sizes
    ensures { (result.flash ≤ 131072) × ((result.locks ≤ 128) × ((result.latch ≤ 128) × (result.params ≤ 34))) }
{
    let row = usize::from(g.part.row_bytes).min(128);
    Sizes {
        flash: parts::flash_size(g).min(131072),
        locks: parts::lock_total(g).min(128),
        latch: row,
        params: 2 + row / 4,
    }
}

// The board's memory has the sizes of its part.
fn play_from(
    rt: &impl Print,
    first: Bench,
    g: Geometry,
    overrides: [Option<Override>; 2],
    image: &[u8],
) -> io::Result<()> {
    let sizes = sizes_of(g);
    let mut flash = cases::filled::<131072>(0);
    let mut locks = [0u8; 128];
    let mut latch = [0u8; 128];
    let mut params = [0u32; 34];
    let last = played(
        first,
        g,
        overrides,
        image,
        &mut flash[..sizes.flash],
        &mut locks[..sizes.locks],
        &mut latch[..sizes.latch],
        &mut params[..sizes.params],
    );
    print_last(rt, last, image)
}

// A session that has started, on the board of its part.
fn play_on(
    rt: &impl Print,
    c: Case,
    session: Session,
    packet: Packet,
    image: &[u8],
) -> io::Result<()> {
    let h = c.header;
    let first = Bench {
        registers: Registers::blank(h.metadata, c.stored, c.privileged),
        session,
        packet: Some(packet),
        digest: cases::digest(b""),
        transfers: 0,
    };
    match parts::find(h.part, h.macros) {
        Ok(g) => play_from(rt, first, g, c.overrides, image),
        Err(refusal) => printing::print_refusal(rt, refusal.number()),
    }
}

pub(crate) fn print_case(rt: &impl Print, c: Case, image: &[u8]) -> io::Result<()> {
    let given = session::start(c.header, image, c.leave);
    match given.outcome {
        Ok(Outcome::Ask(packet)) => play_on(rt, c, given.session, packet, image),
        Ok(Outcome::Reported(_)) => printing::print_refusal(rt, 0),
        Err(refusal) => printing::print_refusal(rt, refusal.number()),
    }
}
