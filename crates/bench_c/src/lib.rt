// The bench board as a call, for tests of hosts: registers, events and answers stand in the caller's bytes (include/halzuqeen_bench.h).
#![tactic(auto)]

ghost use Rattle.std.specs.Prelude.{Ok, ◌≡◌};
ghost use Rattle.bench_calls.specs.Board.{residue_bytes};
ghost use Rattle.bench_c.specs.BoardAsked.{asked_for, asked_of};
ghost use Rattle.bench_c.specs.BoardBytes.{answer_bytes, used_of, BoardPut};
ghost use Rattle.bench_c.specs.BoardCalls.{bench_of, handed, benched, meet_call};

mod board_in;
mod board_out;

use bench_calls::{CallOutcome, Registers};
use bench_memory::{Memory, Residue};
use board_in::{call_outcome_at, event_in, packet_in, registers_in};
use board_out::{answer_bytes, board_bytes};
use flow::{LineEvent, Packet};
use parts::Geometry;
use refusals::Refusal;

// A packet to meet, with all that it is met with.
#[derive(Clone, Copy)]
struct Asked {
    geometry: Geometry,
    registers: Registers,
    packet: Packet,
    event: LineEvent,
    call: CallOutcome,
}

// What bytes of the right lengths ask for.
fn asked_on(
    g: Geometry,
    board: &[u8; 46],
    event: &[u8; 11],
    call: &[u8; 10],
    packet: &[u8; 8],
) -> Result<Asked, Refusal>
    ensures { result ≡ asked_for (Ok g) board.now (handed event.now call.now packet.now) }
{
    let registers = registers_in(board).ok_or(Refusal::ImpossibleSession)?;
    let event = event_in(event).ok_or(Refusal::ImpossibleSession)?;
    let call = call_outcome_at(call, 0).ok_or(Refusal::ImpossibleSession)?;
    let packet = packet_in(packet).ok_or(Refusal::ImpossibleSession)?;
    Ok(Asked {
        geometry: g,
        registers,
        packet,
        event,
        call,
    })
}

// What bytes ask for, or the number to return at once.
// Kept: the C interface: these are what the call hands over, one by one.
fn asked_of(
    part: u8,
    macros: u8,
    board: &[u8],
    event: &[u8],
    call: &[u8],
    packet: &[u8],
    answer: &[u8],
) -> Result<Asked, Refusal>
    ensures { result ≡ asked_of part macros board.now (handed event.now call.now packet.now) answer.now }
{
    let board = board.as_array().ok_or(Refusal::Size)?;
    let event = event.as_array().ok_or(Refusal::Size)?;
    let call = call.as_array().ok_or(Refusal::Size)?;
    let packet = packet.as_array().ok_or(Refusal::Size)?;
    if answer.len() != 8 {
        return Err(Refusal::Size);
    }
    asked_on(parts::find(part, macros)?, board, event, call, packet)
}

// The board meets a packet.
// Kept: the C interface: the number, and the buffers one by one, are what include/halzuqeen_bench.h declares.
#[unsafe(no_mangle)]
pub extern "C" fn halzuqeen_bench_meet(
    part: u8,
    macros: u8,
    board: &mut [u8],
    flash: &mut [u8],
    locks: &mut [u8],
    latch: &mut [u8],
    params: &mut [u32],
    residue_flash: &[u8],
    residue_locks: &[u8],
    residue_latch: &[u8],
    event: &[u8],
    call: &[u8],
    packet: &[u8],
    answer: &mut [u8],
) -> u32
    ensures met { benched result (bench_of board.new flash.new locks.new latch.new params.new answer.new) ≡ meet_call part macros (handed event.now call.now packet.now) (residue_bytes residue_flash.now residue_locks.now residue_latch.now) (bench_of board.old flash.old locks.old latch.old params.old answer.old) }
{
    let asked = match asked_of(part, macros, board, event, call, packet, answer) {
        Ok(asked) => asked,
        Err(refusal) => return u32::from(refusal.number()),
    };
    let memory = Memory {
        flash,
        locks,
        latch,
        params,
    };
    let residue = Residue {
        flash: residue_flash,
        locks: residue_locks,
        latch: residue_latch,
    };
    let met = bench_board::meet(
        asked.geometry,
        asked.registers,
        memory,
        residue,
        asked.packet,
        asked.event,
        asked.call,
    );
    board.copy_from_slice(&board_bytes(met.registers));
    answer.copy_from_slice(&answer_bytes(met.answer, met.line_used, met.call_used));
    0
}
