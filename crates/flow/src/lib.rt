// The types of the flow, which definitions and code share: requests and moves, where a session stands, packets and answers, and what the
// target is made of (document 01, 'Flow' and 'Wire').
#![tactic(auto)]

use wire::Register;

// What a move asks for: a reset, or a read or write of a register.
#[derive(Clone, Copy)]
pub enum Request {
    Xres,
    LineReset,
    ReadIdcode,
    ReadDrw,
    WriteTar(u32),
    WriteDrw(u32),
    // CTRL/STAT, SELECT or CSW.
    WriteSetup(Register, u32),
}

// What the answer to a move is judged by.
#[derive(Clone, Copy)]
pub enum Purpose {
    // Nothing but the acknowledgement, and on a read the parity.
    Sent,
    Idcode,
    TestBit,
    Poll,
    Status,
    // The word is kept: the silicon ID, then the first sum.
    Keep,
    // The IDs and the level in effect, which decides the entry.
    EntryLevel,
    // The same after reopening.
    Reopened,
    // The word must be the image's: of this row, at this offset in it.
    FlashWord(u32, u32),
    // The same of this macro's locks.
    LockWord(u32, u32),
    StoredLevel,
    LastSum,
}

// A move of the sequence, with the flow step that it belongs to.
#[derive(Clone, Copy)]
pub struct Move {
    pub step: u8,
    pub request: Request,
    pub purpose: Purpose,
}

// The target's level as step 2 finds it: which steps follow.
#[derive(Clone, Copy)]
pub enum Entry {
    FromOpen,
    FromProtected,
}

// Where a session stands in the sequence: by which entry, and at which index of it.
#[derive(Clone, Copy)]
pub struct Position {
    pub entry: Entry,
    pub at: u32,
}

// What a running session counts and keeps: the WAITs, polls and attempts running; the IDs, then the first sum.
#[derive(Clone, Copy)]
pub struct Counters {
    pub waits: u32,
    pub polls: u32,
    pub attempts: u32,
    pub kept: u32,
}

// The way that an answer leads from the standing move.
#[derive(Clone, Copy)]
pub enum Way {
    Onward,
    // The same move again.
    Stay,
    // Back to the line reset before an attempt.
    ToReset,
    // Back to the first transfer of a poll's Read.
    ToPoll,
    // Onward, by the entry that step 2 has found.
    Enter(Entry),
}

// Where an answer leads: on with these counters, or to a report with this number. Kept: no plainer: no Result, since number 0 is done.
#[derive(Clone, Copy)]
pub enum Next {
    Go(Way, Counters),
    Stop(u8),
}

// What goes out: a reset, a read's request byte, or a write's request byte, word and parity bit.
#[derive(Clone, Copy)]
pub enum Packet {
    Xres,
    LineReset,
    Read(u8),
    Write(u8, u32, u8),
}

// What a transfer is answered by.
#[derive(Clone, Copy)]
pub struct Reply {
    pub ack: u8,
    pub word: u32,
    pub parity: u8,
}

// What comes back.
#[derive(Clone, Copy)]
pub enum Answer {
    ResetDone,
    Transferred(Reply),
}

// What is at an address of the target, with the offset there, of PARAMS the index of the word.
#[derive(Clone, Copy)]
pub enum Place {
    InFlash(usize),
    InLocks(usize),
    InParams(usize),
    AtLevel,
    AtSysreq,
    AtSysarg,
    AtTestMode,
    Elsewhere,
}

// What nothing alters of the target: 'IDs and S, a 28-bit privileged sum that no call alters'; 'the IDs (IDCODE, high, low, revision,
// family) are free'.
#[derive(Clone, Copy)]
pub struct Silicon {
    pub idcode: u32,
    pub high: u8,
    pub low: u8,
    pub revision: u8,
    pub family: u8,
    pub privileged_sum: u32,
}

// 'Per transfer: OK; WAIT or FAULT, not carried out; silence, carried out or not; wrong parity on a read, carried out.'; document 02,
// Five: 'a noisy transfer, like a silent one, may have been carried out or not according to its list'.
#[derive(Clone, Copy)]
pub enum TransferOutcome {
    Clean,
    Waits,
    Faults,
    WrongParity,
    // Whether it was carried out.
    Silent(bool),
    Noisy(bool),
}

// A transfer's outcome, with what is free in its answer, and the word that is elsewhere.
#[derive(Clone, Copy)]
pub struct LineEvent {
    pub outcome: TransferOutcome,
    pub filler: Reply,
    pub other: u32,
}
