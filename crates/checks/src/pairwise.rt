// Checks 6 and 7 and the counts of edges and faces with no memory: each cell, each part is compared with each other one.
ghost use Rattle.std.specs.Prelude.{◌≡◌, false, [], map, ◌<◌, eqb, length, get_or, take, drop, ◌+◌, ◌/◌};
ghost use Rattle.rules.specs.Lists.{any, repeats, cut, key_of, same};
ghost use Rattle.rules.specs.Mesh.{topology};
ghost use Rattle.rules.specs.Refusals.{mismatched, mismatched_face};
ghost use Rattle.tables.specs.Lent.{mesh_in};
ghost use Rattle.checks.specs.Walk.{parts_met, parts_counted};
ghost use Rattle.checks.specs.Held.{within};

use crate::cells::PlainMesh;
use crate::parts::Part;
use crate::{cells, faces};

// Whether each corner of the one is a corner of the other. Of two cells of one size that name no corner twice it tells whether they have
// one corner set.
pub fn is_within(a: &[u32], b: &[u32]) -> bool
    ensures { result ≡ within a.now b.now }
{
    a.iter().all(|corner| cells::has_number(*corner, b))
}

// Whether two cells of a table, of k corners each, have one corner set. It is not inlined: few tables come here, and among the checks that all
// pass its loops take registers from theirs, 0.9 % more instructions on segments.
#[inline(never)]
pub fn has_duplicate(k: usize, table: &[u32]) -> bool
    requires k_nonzero { 0 < k }
    requires no_repeated_corner { any (repeats eqb) (cut k table.now) ≡ false }
    ensures { result ≡ repeats same (map key_of (cut k table.now)) }
{
    (0..table.len() / k).any(
        |c| -> bool
            requires { (0 < k) × (c < length table.now / k) }
            ensures { let cells = cut k table.entry.now in result ≡ any (within (get_or cells c [])) (drop (c + 1) cells) }
        {
            let (cell, behind) = table[k * c..].split_at(k);
            behind.chunks_exact(k).any(|other| is_within(cell, other))
        },
    )
}

// Whether the parts i and j have one corner set. That a number is one of a part is asked in five contracts: a struct of one number is no
// plainer.
fn same_parts(of: Part, mesh: PlainMesh, i: usize, j: usize) -> bool
    requires { (i < length (parts_met of mesh.tables)) × (j < length (parts_met of mesh.tables)) }
    ensures { let ps = parts_met of mesh.entry.tables in result ≡ same (key_of (get_or ps i [])) (key_of (get_or ps j [])) }
{
    let t = mesh.tables;
    match of {
        Part::Edge => is_within(&of.read::<2>(t, i), &of.read::<2>(t, j)),
        Part::Face => is_within(&of.read::<4>(t, i), &of.read::<4>(t, j)),
    }
}

// Whether part i was met before.
fn is_met_before(of: Part, mesh: PlainMesh, i: usize) -> bool
    requires { i < length (parts_met of mesh.tables) }
    ensures { let keys = map key_of (parts_met of mesh.entry.tables) in result ≡ any (same (get_or keys i [])) (take i keys) }
{
    (0..i).any(|j| same_parts(of, mesh, i, j))
}

// How many edges or faces there are.
pub fn count_distinct(of: Part, mesh: PlainMesh) -> usize
    ensures { result ≡ parts_counted of mesh.entry.tables }
{
    (0..of.count_all(mesh.tables))
        .filter(|i| !is_met_before(of, mesh, *i))
        .count()
}

// Whether the faces i and j have one corner set and other neighbours in going round.
fn is_mismatched(mesh: PlainMesh, i: usize, j: usize) -> bool
    requires { (i < length (parts_met Part.Face mesh.tables)) × (j < length (parts_met Part.Face mesh.tables)) }
    ensures { let fs = parts_met Part.Face mesh.entry.tables in result ≡ mismatched (get_or fs i []) (get_or fs j []) }
{
    let f = Part::Face.read(mesh.tables, i);
    let g = Part::Face.read(mesh.tables, j);
    is_within(&f, &g) && faces::across(f) != faces::across(g)
}

// Whether some face does not match face i.
fn has_mismatch(mesh: PlainMesh, i: usize) -> bool
    requires { i < length (parts_met Part.Face mesh.tables) }
    ensures { let fs = parts_met Part.Face mesh.entry.tables in result ≡ any (mismatched (get_or fs i [])) fs }
{
    (0..Part::Face.count_all(mesh.tables)).any(|j| is_mismatched(mesh, i, j))
}

// Whether two faces have one corner set and different neighbours in going round.
pub fn has_mismatched_face(mesh: PlainMesh) -> bool
    ensures { result ≡ mismatched_face (topology (mesh_in mesh.entry.tables)) }
{
    (0..Part::Face.count_all(mesh.tables)).any(|i| has_mismatch(mesh, i))
}
