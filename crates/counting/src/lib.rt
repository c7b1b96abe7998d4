// The sizes of a mesh after some rounds, and its counts against the ranges and against lent tables: what decides checks 10 and 11 before
// any round. Rests on the definitions of `rules` alone.
#![tactic(auto)]

ghost use Rattle.std.specs.Prelude.{◌≡◌, ◌≤◌, ◌^◌};
ghost use Rattle.rules.specs.Counts.{next_sizes, sizes_after, out_of_range, counts_in, fewer};
ghost use Rattle.counting.specs.Bounded.{Bounded, Narrow};

use rules::{Counts, Sizes};

// What a round makes of the sizes.
#[tactic(auto, unfolding(rules::specs::Counts::next_sizes))]
pub fn next_sizes(s: Sizes) -> Sizes
    requires { Bounded (2 ^ 59) s }
    ensures { result ≡ next_sizes s }
{
    Sizes {
        vertices: s.vertices + (s.edges + (s.faces + s.hexes)),
        edges: 2 * s.edges + (4 * s.faces + 6 * s.hexes),
        faces: 4 * s.faces + 12 * s.hexes,
        hexes: 8 * s.hexes,
        quads: 4 * s.quads,
        segments: 2 * s.segments,
        points: s.points,
    }
}

// What some rounds make of the sizes. A range, since there is nothing to go over: each round is made of the one before.
pub fn sizes_after(rounds: u32, s: Sizes) -> Sizes
    requires bounded { Bounded (2 ^ 23) s }
    requires rounds_bound { rounds ≤ 8 }
    ensures { result ≡ sizes_after rounds s }
{
    let mut now = s;
    for _ in 0..rounds {
        now = next_sizes(now);
    }
    now
}

// Whether some count is outside its range: check 2 of counts in a header, check 10 of the finished mesh.
#[tactic(auto, unfolding(rules::specs::Counts::out_of_range, rules::specs::Counts::counts_in))]
pub fn out_of_range(s: Sizes) -> bool
    ensures { result ≡ out_of_range (counts_in s) }
{
    s.vertices == 0
        || 1_000_000 < s.vertices
        || 250_000 < s.hexes
        || 250_000 < s.quads
        || 250_000 < s.segments
        || 250_000 < s.points
}

// Whether some lent table has fewer places than are needed: check 11.
#[tactic(auto, unfolding(rules::specs::Counts::fewer, rules::specs::Counts::counts_in))]
pub fn fewer(lent: Sizes, needed: Sizes) -> bool
    ensures { result ≡ fewer (counts_in lent) (counts_in needed) }
{
    lent.vertices < needed.vertices
        || lent.hexes < needed.hexes
        || lent.quads < needed.quads
        || lent.segments < needed.segments
        || lent.points < needed.points
}

// The five counts among the sizes. No `TryFrom`: each caller knows that they are narrow, and an `Err` would be a branch that none takes.
#[tactic(auto, unfolding(rules::specs::Counts::counts_in))]
pub fn counts_in(sizes: Sizes) -> Counts
    requires { Narrow sizes }
    ensures { result ≡ counts_in sizes }
{
    Counts {
        vertices: sizes.vertices as u32,
        hexes: sizes.hexes as u32,
        quads: sizes.quads as u32,
        segments: sizes.segments as u32,
        points: sizes.points as u32,
    }
}
