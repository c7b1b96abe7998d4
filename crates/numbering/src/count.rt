// How many distinct edges and corner sets there are, with whatever memory is lent.
ghost use Rattle.std.specs.Prelude.{◌≡◌, ◌+◌, ◌*◌, ◌^◌, ◌≤◌, ◌<◌, length, MatchOption};
ghost use Rattle.numbering.specs.Table.{words_for, Table};
ghost use Rattle.numbering.specs.Parts.{part_corners, table_keys};
ghost use Rattle.numbering.specs.Count.{room_of, CountOf, edge_keys};

use crate::parts::Parts;
use crate::{parts, table};

// For how many keys so many words have room, of which there is at least one, where a key takes `size` of them and all together one more; at
// most `most`, and at most what a table holds.
pub fn room_in(words: usize, size: usize, most: usize) -> usize
    requires { (0 < words) × (0 < size) }
    ensures room { result ≡ room_of words size most }
    ensures fits { (size * result + 1 ≤ words) × (result + 1 < 2 ^ 32) }
{
    ((words - 1) / size).min(most).min(4294967294)
}

// The same for keys of c numbers, with `beside` more words for each key: what `table::size` says, the other way round.
pub fn room_for(words: usize, c: usize, beside: usize, most: usize) -> usize
    requires some_word { 0 < words }
    requires short { c + 2 + beside < 2 ^ 64 }
    ensures room { result ≡ room_of words (c + 2 + beside) most }
    ensures fits { words_for c result + beside * result ≤ words }
    ensures few { result + 1 < 2 ^ 32 }
{
    room_in(words, c + 2 + beside, most)
}

// Makes an empty table of keys of c numbers with room for `most`, or for as many as the memory holds; the answer is its room, or `None` where
// there is no memory. Room that is never used would cost: a table with fewer slots is cleared sooner, and more of it stays in the processor's
// cache.
fn prepare_for(w: &mut [u32], c: usize, most: usize) -> Option<usize>
    requires { c ≤ 8 }
    ensures { MatchOption result (length w.old ≡ 0) (λ room. Table c w.new room 0) }
{
    if w.is_empty() {
        return None;
    }
    let room = room_for(w.len(), c, 0, most);
    table::prepare(w, room);
    Some(room)
}

// The edges of a mesh.
#[tactic(auto, using(crate::proofs::Places::few_keys))]
pub fn count_edges(w: &mut [u32], hexes: &[u32], quads: &[u32], segments: &[u32]) -> Option<usize>
    ensures { CountOf (edge_keys hexes.now quads.now segments.now) result }
{
    let most = Parts::HexEdges.count_all(hexes)
        + Parts::QuadEdges.count_all(quads)
        + Parts::Segments.count_all(segments);
    let room = prepare_for(w, 2, most)?;
    let by_hexes = parts::meet_table_of::<2>(w, room, 0, Parts::HexEdges, hexes)?;
    let by_quads = parts::meet_table_of::<2>(w, room, by_hexes, Parts::QuadEdges, quads)?;
    parts::meet_table_of::<2>(w, room, by_quads, Parts::Segments, segments)
}

// The parts of the cells of one table, of C corners each: a constant, so that no loop over a key is left. With cells as parts: how many corner
// sets they have.
pub fn count_table_of<const C: usize>(w: &mut [u32], of: Parts, cells: &[u32]) -> Option<usize>
    requires { C ≡ part_corners of }
    ensures { CountOf (table_keys of cells.now) result }
{
    let room = prepare_for(w, C, of.count_all(cells))?;
    parts::meet_table_of::<C>(w, room, 0, of, cells)
}

// The same for a caller that knows the parts only when it runs: how many corners a part has is asked once for the table. Where the check of
// duplicate cells called this, refining points took 0.9 % more instructions: the bar is 0.5 %.
pub fn count_table(w: &mut [u32], of: Parts, cells: &[u32]) -> Option<usize>
    ensures { CountOf (table_keys of cells.now) result }
{
    match of.part_corners() {
        1 => count_table_of::<1>(w, of, cells),
        2 => count_table_of::<2>(w, of, cells),
        4 => count_table_of::<4>(w, of, cells),
        _ => count_table_of::<8>(w, of, cells),
    }
}
