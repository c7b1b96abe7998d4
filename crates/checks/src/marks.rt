// Check 8 by marks. The vertices are looked at in windows, as many at a time as there are lent numbers: each corner in the window is marked,
// and a vertex without a mark is in no cell. The number at place v of a window is that of vertex first + v.
ghost use Rattle.std.specs.Prelude.{◌≡◌, SomeIff, ◌-◌, ◌≤◌, ◌<◌, eqb, length};
ghost use Rattle.rules.specs.Lists.{any, up_from};
ghost use Rattle.tables.specs.Lent.{mesh_in};
ghost use Rattle.checks.specs.Held.{isolated_in};
ghost use Rattle.checks.specs.Marked.{Marked};

use tables::MeshTables;

// The place of vertex v in a window of so many vertices. A test: by `checked_sub` and `filter` an irregular count takes 3.9 % more
// instructions, and of a slice written behind its `get_mut` no number is known.
pub fn place_in_window(v: usize, first: usize, size: usize) -> Option<usize>
    ensures { SomeIff result ((first ≤ v) × (v - first < size)) (v - first) }
{
    if first <= v && v - first < size {
        Some(v - first)
    } else {
        None
    }
}

// Marks by x each corner of a table that is in the window.
pub fn mark(w: &mut [u32], first: usize, x: u32, table: &[u32])
    ensures { Marked first x w.old w.new table.now }
{
    for corner in table {
        if let Some(place) = place_in_window(*corner as usize, first, w.len()) {
            w[place] = x;
        }
    }
}

// Whether some number is 0.
fn has_zero(w: &[u32]) -> bool
    ensures { result ≡ any (eqb 0) w.now }
{
    w.contains(&0)
}

// Whether a vertex of the window, which has as many as there are numbers, is in no cell.
fn has_isolated_in_window(w: &mut [u32], first: usize, mesh: MeshTables) -> bool
    ensures { result ≡ any (isolated_in (mesh_in mesh.entry)) (up_from first (length w.old)) }
{
    w.fill(0);
    mark(w, first, 1, mesh.hexes);
    mark(w, first, 1, mesh.quads);
    mark(w, first, 1, mesh.segments);
    mark(w, first, 1, mesh.points);
    has_zero(w)
}

// Whether one of the vertices below n is in no cell: of all of them, that is check 8 (rule 7.8). That a number is lent is asked here and in
// four more contracts of this crate: a struct for one fact about one slice is no plainer, as each would be made from the slice for one call.
pub fn has_isolated_vertex(w: &mut [u32], n: usize, mesh: MeshTables) -> bool
    requires { 0 < length w.old }
    ensures { result ≡ any (isolated_in (mesh_in mesh.entry)) (up_from 0 n) }
{
    let room = w.len();
    // No chain: its closure would change the lent memory, and nothing would be known of it behind the chain.
    for first in (0..n).step_by(room) {
        let size = room.min(n - first);
        if has_isolated_in_window(&mut w[..size], first, mesh) {
            return true;
        }
    }
    false
}
