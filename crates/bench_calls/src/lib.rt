// The plain board's registers, and what a call does to them when it ends (document 01, 'The plain board').
#![tactic(auto)]

ghost use Rattle.std.specs.Prelude.{◌||◌, ◌≡◌, ◌+◌, ◌*◌, eqb};
ghost use Rattle.bench_calls.specs.Board.{residue_of};
ghost use Rattle.bench_calls.specs.Ends.{ended, MakesOf, Fails, Succeeds, Answers, Resets, Alters};
ghost use Rattle.flow.specs.Calls.{failed_arg, sysreq_after, finish};
ghost use Rattle.flow.specs.Target.{set_reset};

mod beginnings;

use bench_effects::Act;
use flow::Silicon;
use parts::Geometry;

// How a call will go: busy reads, then success, or a failure that leaves this SYSARG and, of 0x0D, perhaps the level sent.
// Kept: the C interface: a board's bytes hold all four, of a call that succeeds too, and the claim `back` of bench_c gives them back.
#[derive(Clone, Copy)]
pub struct CallOutcome {
    pub busy_reads: u32,
    pub succeeds: bool,
    pub sysarg: u32,
    pub new_level: bool,
}

// A call under way: how it will go, and its number.
#[derive(Clone, Copy)]
pub struct Call {
    pub outcome: CallOutcome,
    pub number: u8,
}

// The board's registers, with the level stored, of whose byte the low four bits count, and the level in effect.
// Kept: the C interface: both are bytes of a board that may hold any number, and the claim `back` of bench_c gives `effect` back.
#[derive(Clone, Copy)]
pub struct Registers {
    pub silicon: Silicon,
    pub stored: u8,
    pub effect: u8,
    pub sysarg: u32,
    pub sysreq: u32,
    pub test_mode: u32,
    pub tar: u32,
    pub posted: u32,
    pub running: Option<Call>,
}

// The registers after a request, and what it does to the memory.
#[derive(Clone, Copy)]
pub struct Change {
    pub registers: Registers,
    pub act: Act,
}

// The registers at a call's end.
fn end(r: Registers, stored: u8, sysarg: u32, sysreq: u32, act: Act) -> Change
    ensures { result ≡ ended r stored sysarg sysreq act }
{
    Change {
        registers: Registers {
            stored,
            sysarg,
            sysreq,
            running: None,
            ..r
        },
        act,
    }
}

// A failed call's SYSARG, of another top digit.
// Kept: no plainer: the digit lies inside a byte, so it is spelled as the definition `failed_arg` spells it.
fn failed_arg(word: u32) -> u32
    ensures { result ≡ failed_arg word }
{
    if word / 0x10000000 % 16 == 10 {
        0
    } else {
        word
    }
}

// Whether a call leaves the memory alone even when it fails.
// Kept: what may not change: a call's number is a byte of the wire, and `finish` and `sysarg_after` of flow are of any number.
fn keeps_memory(c: u8) -> bool
    ensures { result ≡ (eqb c 0 || eqb c 0x0B || eqb c 0x15) }
{
    matches!(c, 0 | 0x0B | 0x15)
}

// A call that fails.
#[tactic(auto, unfolding(flow::specs::Calls::finish, flow::specs::Calls::after_failure))]
fn fail(r: Registers, call: Call) -> Change
    ensures { Fails call r result }
{
    let Call { outcome, number } = call;
    let arg = failed_arg(outcome.sysarg);
    if keeps_memory(number) {
        end(r, r.stored, arg, 0, Act::Keep)
    } else {
        let level = bench_effects::level_left(r.sysarg, r.stored, outcome.new_level, number);
        end(r, level, arg, 0, Act::PutResidue)
    }
}

// The IDs as step 2 reads them in SYSARG.
fn ids_of(s: Silicon) -> u32
    ensures { result ≡ 0xA0000000 + s.revision * 0x10000 + s.high * 256 + s.low }
{
    u32::from_be_bytes([0xA0, s.revision, s.high, s.low])
}

// SYSARG after a successful call.
#[tactic(auto, unfolding(flow::specs::Calls::sysarg_after))]
fn sysarg_after(s: Silicon, flash: &[u8], c: u8) -> u32
    ensures { Answers c s flash.now result }
{
    match c {
        0 => ids_of(s),
        0x0B => 0xA0000000 + s.privileged_sum.wrapping_add(lent::whole_sum(flash)) % 0x10000000,
        _ => 0xA0000000,
    }
}

// SYSREQ after a successful call.
#[tactic(auto, unfolding(flow::specs::Calls::sysreq_after))]
fn sysreq_after(s: Silicon, effect: u8, c: u8) -> u32
    ensures { result ≡ sysreq_after c s effect }
{
    if c == 0 {
        u32::from(effect) * 0x1000 + u32::from(s.family)
    } else {
        0
    }
}

// A call that succeeds.
// Kept: no plainer: flash and PARAMS go on from here one by one, each to another function.
#[tactic(auto, unfolding(flow::specs::Calls::finish))]
fn succeed(g: Geometry, r: Registers, flash: &[u8], params: &[u32], c: u8) -> Change
    ensures { Succeeds g flash.now params.now c r result }
{
    let effect = bench_effects::effect_of(g, r.effect, r.sysarg, r.stored, params, c);
    let arg = sysarg_after(r.silicon, flash, c);
    let req = sysreq_after(r.silicon, r.effect, c);
    end(r, effect.stored, arg, req, effect.act)
}

// A call's end.
pub fn complete(g: Geometry, r: Registers, flash: &[u8], params: &[u32], call: Call) -> Change
    ensures ended { MakesOf flash.now params.now r result (λ x t. finish g call.outcome.succeeds (residue_of x call.outcome) call.number t) }
{
    if call.outcome.succeeds {
        succeed(g, r, flash, params, call.number)
    } else {
        fail(r, call)
    }
}

// XRES, once nothing is under way: the stored level in effect, SYSREQ cleared.
fn cleared(n: Change) -> Change
    ensures { Alters n result set_reset }
{
    let r = n.registers;
    Change {
        registers: Registers {
            effect: r.stored % 16,
            sysreq: 0,
            running: None,
            ..r
        },
        ..n
    }
}

// XRES.
pub fn xres(r: Registers) -> Change
    ensures reset { Resets r result }
{
    match r.running {
        None => cleared(Change {
            registers: r,
            act: Act::Keep,
        }),
        Some(call) => cleared(fail(r, call)),
    }
}
