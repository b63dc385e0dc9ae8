// How many moves the sequence has (document 01, 'Flow'): 13 bounds an index by it.
#![tactic(auto)]

ghost use Rattle.std.specs.Prelude.{◌≡◌, ◌<◌};
ghost use Rattle.flow.specs.Session.{move_count};
ghost use Rattle.move_counts.specs.Counts.{program_count};

use call_moves::opening_moves;
use flow::Entry;
use parts::Geometry;

// The moves of steps 4 to 9.
#[tactic(auto, using(crate::proofs::Counts::program_length))]
fn program_moves(g: Geometry) -> usize
    ensures count { result ≡ program_count g }
    ensures bounded { result < 0x4000000000000 }
{
    let rows = parts::rows(g) as usize;
    let words = usize::from(g.part.row_bytes) / 4;
    let macros = usize::from(g.macros);
    let locks = parts::locks_in(g, 0) / 4;
    29 + rows * (26 + 5 * words) + macros * (24 + 5 * locks)
}

// The number of moves of the sequence.
#[tactic(auto, using(crate::proofs::Counts::counts))]
pub fn move_count(g: Geometry, entry: Entry) -> usize
    ensures count { result ≡ move_count g entry }
{
    let opening = opening_moves(g) as usize;
    let rest = program_moves(g);
    match entry {
        Entry::FromOpen => opening + 12 + rest,
        Entry::FromProtected => opening + 10 + opening + rest,
    }
}
