// The plain board of document 01 as code: registers by value, memory lent, one call for each request.
#![tactic(auto)]

ghost use Rattle.std.specs.Prelude.{Some, ◌≡◌};
ghost use Rattle.bench_calls.specs.Board.{lent, residue_bytes, target_of};
ghost use Rattle.bench_board.specs.Meets.{buffers_read, Decides, lists_of, met_of};
ghost use Rattle.flow.specs.Exchange.{meet_on};
ghost use Rattle.flow.specs.Exchange as Flow;

mod transfers;
mod words;

use bench_calls::{CallOutcome, Change, Registers};
use bench_memory::{Memory, Residue};
use flow::{Answer, LineEvent, Packet, Request};
use parts::Geometry;

// The lent buffers that a request reads.
#[derive(Clone, Copy)]
struct Buffers<'a> {
    flash: &'a [u8],
    locks: &'a [u8],
    params: &'a [u32],
}

// How a packet is met, before the memory is written.
// Kept: no plainer: one type for this and Met would hold registers with or without an act, which no name fits.
#[derive(Clone, Copy)]
struct Decision {
    change: Change,
    answer: Answer,
    line_used: bool,
    call_used: bool,
}

// How a packet was met: the registers after it, the answer, and whether the event and the outcome were used.
// Kept: no plainer: no value hangs on either flag, and both go out in one byte of an answer (bench_c's `used_of`).
#[derive(Clone, Copy)]
pub struct Met {
    pub registers: Registers,
    pub answer: Answer,
    pub line_used: bool,
    pub call_used: bool,
}

// How a known request is met.
// Kept: no plainer: a match on a closed enum, with a function where the requests differ.
fn meet_request(
    g: Geometry,
    r: Registers,
    buffers: Buffers<'_>,
    q: Request,
    e: LineEvent,
    o: CallOutcome,
) -> Decision
    ensures { Decides (buffers_read buffers.entry.flash.now buffers.entry.locks.now buffers.entry.params.now) r e o result (λ l t. meet_on g (Some q) l t) }
{
    match q {
        Request::Xres => Decision {
            change: bench_calls::xres(r),
            answer: Answer::ResetDone,
            line_used: false,
            call_used: false,
        },
        Request::LineReset => Decision {
            change: words::keep(r),
            answer: Answer::ResetDone,
            line_used: false,
            call_used: false,
        },
        _ => transfers::transfer(g, r, buffers, q, e, o),
    }
}

// How a packet is met; one that is no request is met by silence.
#[tactic(auto, unfolding(flow::specs::Exchange::meet))]
fn decide(
    g: Geometry,
    r: Registers,
    buffers: Buffers<'_>,
    p: Packet,
    e: LineEvent,
    o: CallOutcome,
) -> Decision
    ensures { Decides (buffers_read buffers.entry.flash.now buffers.entry.locks.now buffers.entry.params.now) r e o result (λ l t. Flow.meet g p l t) }
{
    match bench_packets::request_in(p) {
        Some(q) => meet_request(g, r, buffers, q, e, o),
        None => Decision {
            change: words::keep(r),
            answer: Answer::Transferred(bench_lines::silent_reply(e.filler)),
            line_used: true,
            call_used: false,
        },
    }
}

// The board meets a packet. The memory lent may have any sizes; what a failed call leaves is lent while the call is under way.
pub fn meet(
    g: Geometry,
    r: Registers,
    memory: Memory<'_>,
    residue: Residue<'_>,
    p: Packet,
    e: LineEvent,
    o: CallOutcome,
) -> Met
    ensures met { met_of (residue_bytes residue.entry.flash.now residue.entry.locks.now residue.entry.latch.now) e o result (lent memory.exit.0.now memory.exit.1.0.now memory.exit.1.1.0.now memory.exit.1.1.1.0.now) ≡ Flow.meet g p (lists_of (residue_bytes residue.entry.flash.now residue.entry.locks.now residue.entry.latch.now) e o) (target_of (residue_bytes residue.entry.flash.now residue.entry.locks.now residue.entry.latch.now) r (lent memory.entry.flash.now memory.entry.locks.now memory.entry.latch.now memory.entry.params.now)) }
{
    let Memory {
        flash,
        locks,
        latch,
        params,
    } = memory;
    let buffers = Buffers {
        flash,
        locks,
        params,
    };
    let Decision {
        change: Change { registers, act },
        answer,
        line_used,
        call_used,
    } = decide(g, r, buffers, p, e, o);
    let memory = Memory {
        flash,
        locks,
        latch,
        params,
    };
    bench_memory::perform(act, memory, residue);
    Met {
        registers,
        answer,
        line_used,
        call_used,
    }
}
