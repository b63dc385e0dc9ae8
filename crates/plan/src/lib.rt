// The plan and the most transfers, as document 01 counts them.
#![tactic(auto)]

ghost use Rattle.std.specs.Prelude.{◌≡◌, ◌≤◌, ◌<◌, ◌^◌};
ghost use Rattle.flow.specs.Plan.{from_protected, lock_plan, plan, loops, acquisitions, most_traffic};
ghost use Rattle.parts.specs.Sizes.{macros_of};

use flow::Entry;
use parts::Geometry;

// The addition for a target that was PROTECTED.
fn if_protected(y: Entry, more: u64) -> u64
    ensures equal { result ≡ from_protected y more }
    ensures bounded { result ≤ more }
{
    match y {
        Entry::FromOpen => 0,
        Entry::FromProtected => more,
    }
}

fn acquisitions_of(y: Entry) -> u64
    ensures equal { result ≡ acquisitions y }
    ensures bounded { result < 3 }
{
    match y {
        Entry::FromOpen => 1,
        Entry::FromProtected => 2,
    }
}

// The locks' part of it, summed over the macros.
fn lock_plan(g: Geometry) -> u64
    ensures equal { result ≡ lock_plan g (macros_of g) }
    ensures bounded { result ≤ 2616810 }
{
    let mut sum = 0;
    for m in 0..u32::from(g.macros) {
        sum += 24 + 5 * (parts::locks_in(g, m) as u64) / 4;
    }
    sum
}

// The plan: the reads and writes of the sequence.
#[tactic(auto, unfolding(flow::specs::Plan::plan))]
fn plan_of(g: Geometry, y: Entry) -> u64
    ensures equal { result ≡ plan g y }
    ensures bounded { result < 2 ^ 54 }
{
    let imo = u64::from(g.part.imo);
    let row = 26 + 5 * u64::from(g.part.row_bytes) / 4;
    69 + 10 * imo + u64::from(parts::rows(g)) * row + lock_plan(g) + if_protected(y, 26 + 10 * imo)
}

// The poll loops of the sequence.
#[tactic(auto, unfolding(flow::specs::Plan::loops))]
fn loops_of(g: Geometry, y: Entry) -> u64
    ensures equal { result ≡ loops g y }
    ensures bounded { result < 2 ^ 40 }
{
    let imo = u64::from(g.part.imo);
    5 + imo + 2 * u64::from(parts::rows(g)) + 2 * u64::from(g.macros) + if_protected(y, 2 + imo)
}

// The most reads and writes that a session may hand out: those from PROTECTED.
#[tactic(auto, unfolding(flow::specs::Plan::most_traffic))]
pub fn most_transfers(g: Geometry) -> u64
    ensures most { result ≡ (most_traffic g Entry.FromProtected).transfers }
{
    let y = Entry::FromProtected;
    17 * (plan_of(g, y) + 29997 * loops_of(g, y) + 29 * acquisitions_of(y))
}
