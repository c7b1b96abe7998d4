// Checks 6 and 7 and the counts of edges and faces, class by class; with too little memory for that, part by part. Check 6 and the edges
// come here where a table of all keys was full: they begin with two classes.
ghost use Rattle.std.specs.Prelude.{◌≡◌, false, map, ◌≤◌, ◌<◌, eqb};
ghost use Rattle.rules.specs.Lists.{any, repeats, cut, key_of, same};
ghost use Rattle.tables.specs.Lent.{mesh_in};
ghost use Rattle.checks.specs.Walk.{parts_counted};
ghost use Rattle.checks.specs.Checked.{FacesChecked};

use crate::cells::PlainMesh;
use crate::classes::Walk;
use crate::parts::Part;
use crate::tagged::Stopped;
use crate::{classes, pairwise};
use rules::Refusal;

// Whether two cells of a table have one corner set; a cell has k corners.
#[inline(always)]
pub fn has_duplicate(words: &mut [u32], k: usize, cells: &[u32]) -> bool
    requires few { (0 < k) × (k ≤ 8) }
    requires no_repeated_corner { any (repeats eqb) (cut k cells.now) ≡ false }
    ensures { result ≡ repeats same (map key_of (cut k cells.now)) }
{
    match classes::find(words, Walk::Cells(cells), k, 2) {
        Ok(n) => n != cells.len() / k,
        Err(_) => pairwise::has_duplicate(k, cells),
    }
}

// Check 7 face by face.
fn check_faces_pairwise(mesh: PlainMesh) -> Result<usize, Refusal>
    ensures { FacesChecked (mesh_in mesh.entry.tables) result }
{
    if pairwise::has_mismatched_face(mesh) {
        return Err(Refusal::MismatchedFace);
    }
    Ok(pairwise::count_distinct(Part::Face, mesh))
}

// Check 7, which meets all faces and counts them by the way.
pub fn check_faces(words: &mut [u32], mesh: PlainMesh) -> Result<usize, Refusal>
    ensures { FacesChecked (mesh_in mesh.entry.tables) result }
{
    match classes::find(words, Walk::Faces(mesh.tables), 4, 1) {
        Ok(n) => Ok(n),
        Err(Stopped::Differs) => Err(Refusal::MismatchedFace),
        Err(Stopped::Full) => check_faces_pairwise(mesh),
    }
}

// How many edges there are.
pub fn edge_count(words: &mut [u32], mesh: PlainMesh) -> usize
    ensures { result ≡ parts_counted Part.Edge mesh.entry.tables }
{
    match classes::find(words, Walk::Edges(mesh.tables), 2, 2) {
        Ok(n) => n,
        Err(_) => pairwise::count_distinct(Part::Edge, mesh),
    }
}
