// The dry run of part 1's text on a board that is OPEN, without mishap (document 01, 'The dry run program').
#![tactic(auto)]

ghost use Rattle.std.specs.Prelude.{◌≡◌, length, take, drop, Ok, IsOkAnd, MatchResult};
ghost use Rattle.bench_calls.specs.Board.{lent};
ghost use Rattle.dry.specs.Playing.{calm_event, open_for, moment, Turns, Playable, Started, report_in, DoneAsPlanned};
ghost use Rattle.dry.specs.Runs.{ran_by, ran_on, LineOf};
ghost use Rattle.dry.specs.declared.Ran.TheVariants.{Refused};
ghost use Rattle.flow.specs.Examples.{part_one};
ghost use Rattle.io.specs.Counts.{IsPrefixLen};
ghost use Rattle.refusals.specs.Refusals.{refusal_number};
ghost use Rattle.session.specs.Calls.{standing};
ghost use Rattle.session.specs.Outcomes.{Ask};
ghost use Rattle.session.specs.Told.{outcome_told};

mod lines;

use bench_calls::{CallOutcome, Registers};
use bench_memory::{Memory, Residue};
use flow::{LineEvent, Packet, Reply, TransferOutcome};
use image::Header;
use parts::Geometry;
use refusals::Refusal;
use session::{Outcome, Report, Session};

// What a dry run comes to: the transfers of a session that was done, or the number of a refusal or of a report.
// Kept: no plainer: the number is a refusal's or a report's, which are two types, and the line prints it alike.
#[derive(Clone, Copy)]
pub enum Ran {
    Done(u32),
    Refused(u8),
}

// Between two turns: the board's registers, the session, and what stands.
#[derive(Clone, Copy)]
struct Moment {
    registers: Registers,
    session: Session,
    stands: Outcome,
}

// Document 01's count for part 1 from OPEN: the most transfers, one XRES and 30 line resets.
const MOST: u64 = 17 * (27279 + 29997 * 520 + 29) + 31;

fn calm_event() -> LineEvent
    ensures { result ≡ calm_event }
{
    LineEvent {
        outcome: TransferOutcome::Clean,
        filler: Reply {
            ack: 0,
            word: 0,
            parity: 0,
        },
        other: 0,
    }
}

// An OPEN board with the image's IDs.
fn open_board(h: Header) -> Registers
    ensures { result ≡ open_for h }
{
    Registers::blank(h.metadata, 1, 0)
}

// A refused step hands out nothing: the packet still stands.
fn standing_after(p: Packet, o: Result<Outcome, Refusal>) -> Outcome
    ensures { outcome_told (Ok result) ≡ standing (Ask p) (outcome_told o) }
{
    o.unwrap_or(Outcome::Ask(p))
}

// The board meets a packet, and the session steps on its answer.
fn take_turn(
    g: Geometry,
    m: Moment,
    p: Packet,
    image: &[u8],
    flash: &mut [u8],
    locks: &mut [u8],
    latch: &mut [u8],
    params: &mut [u32],
) -> Moment
    ensures { Turns g image.now p (moment m.session (Ask p) m.registers (lent flash.old locks.old latch.old params.old)) (moment result.session (outcome_told (Ok result.stands)) result.registers (lent flash.new locks.new latch.new params.new)) }
{
    let nothing = &image[..0];
    let memory = Memory {
        flash,
        locks,
        latch,
        params,
    };
    let residue = Residue {
        flash: nothing,
        locks: nothing,
        latch: nothing,
    };
    let met = bench_board::meet(
        g,
        m.registers,
        memory,
        residue,
        p,
        calm_event(),
        CallOutcome::calm(0),
    );
    let given = session::step(m.session, image, met.answer);
    Moment {
        registers: met.registers,
        session: given.session,
        stands: standing_after(p, given.outcome),
    }
}

// The report that stands; one of zeros where a request does.
// Kept: no plainer: after the last turn a report stands, so an Option would have a None that never comes, and that `run` had to print.
fn report_in(stands: Outcome) -> Report
    ensures { result ≡ report_in (outcome_told (Ok stands)) }
{
    match stands {
        Outcome::Reported(report) => report,
        Outcome::Ask(_) => Report {
            number: 0,
            step: 0,
            transfers: 0,
        },
    }
}

// The report of a session that has been started on part 1.
fn played(
    g: Geometry,
    first: Moment,
    image: &[u8],
    flash: &mut [u8],
    locks: &mut [u8],
    latch: &mut [u8],
    params: &mut [u32],
) -> Report
    requires { (g ≡ part_one) × Started image.now (moment first.session (outcome_told (Ok first.stands)) first.registers (lent flash.old locks.old latch.old params.old)) }
    ensures { DoneAsPlanned result }
{
    let mut m = first;
    for _ in 0..MOST {
        match m.stands {
            Outcome::Ask(p) => m = take_turn(g, m, p, image, flash, locks, latch, params),
            Outcome::Reported(report) => return report,
        }
    }
    report_in(m.stands)
}

// An array of zeros. Its contract keeps a caller's prover from writing out so long an array.
fn zeros<const N: usize>() -> [u8; N]
    ensures { N ≡ length result }
{
    [0; N]
}

// The report of a session of an image on an OPEN board with its IDs, KILL allowed.
fn report_on(g: Geometry, h: Header, image: &[u8]) -> Result<Report, Refusal>
    requires { (g ≡ part_one) × Playable h image.now }
    ensures { IsOkAnd result DoneAsPlanned }
{
    let given = session::start(h, image, true);
    let first = Moment {
        registers: open_board(h),
        session: given.session,
        stands: given.outcome?,
    };
    let mut flash = zeros::<16384>();
    let mut locks = [0u8; 32];
    let mut latch = [0u8; 64];
    let mut params = [0u32; 18];
    Ok(played(
        g,
        first,
        image,
        &mut flash,
        &mut locks,
        &mut latch,
        &mut params,
    ))
}

fn report_for(h: Header, image: &[u8]) -> Result<Report, Refusal>
    requires { Playable h image.now }
    ensures { IsOkAnd result DoneAsPlanned }
{
    report_on(parts::find(1, 1)?, h, image)
}

// What a dry run comes to, by its report.
fn ran_by(r: Report) -> Ran
    ensures { result ≡ ran_by r }
{
    if r.number == 0 {
        Ran::Done(r.transfers)
    } else {
        Ran::Refused(r.number)
    }
}

// The report of a text's session; the reader's refusal where it refuses the text.
fn report_of(text: &[u8]) -> Result<Report, Refusal>
    ensures { MatchResult result (λ r. ran_by r ≡ ran_on text.now) (λ e. Refused (refusal_number e) ≡ ran_on text.now) }
{
    let mut image = zeros::<16416>();
    let header = hex_reader::read(1, 1, text, &mut image)?;
    report_for(header, &image)
}

// The dry run of a text: refused with the reader's number, or done with the plan.
pub fn run(text: &[u8]) -> Ran
    ensures ran { result ≡ ran_on text.now }
{
    match report_of(text) {
        Ok(report) => ran_by(report),
        Err(refusal) => Ran::Refused(refusal.number()),
    }
}

// The dry run of a text's first 64 KiB.
fn run_cut(text: &[u8]) -> Ran
    ensures { result ≡ ran_on (take 65536 text.now) }
{
    run(&text[..text.len().min(65536)])
}

// The dry run of a text, cut at 64 KiB, as the line that the program prints: puts it at the start of `line`, keeps the rest, and gives its length.
pub fn line_of(text: &[u8], line: &mut [u8; 32]) -> usize
    ensures line { IsPrefixLen result line.new × LineOf (ran_on (take 65536 text.now)) (take result line.new) }
    ensures rest { drop result line.new ≡ drop result line.old }
{
    lines::ran_line(run_cut(text), line)
}
