// Checks 1 to 8 over a whole mesh, in order (rules 7.1 to 7.8 of docs/SPECIFICATION.md), and the sizes of a mesh that passes them (rule 5.1).
//
// Rests on `numbering` (tables of keys in lent memory), `counting` (the ranges of counts) and on the laws of `lists` and `soundness`.
// Promises: each check is an equation with its test of `rules`, and the first that fails is the refusal. Checks 6 to 8 and the sizes take
// lent numbers, and the answer never depends on how many there are. They are near-linear with `1 + max(V, 10 H, 6 Q, 4 S, 3 P, 7 (6 H + Q))`
// numbers, for V vertices, H hexes, Q quads, S segments and P points, and the sizes with `1 + 4 (12 H + 4 Q + S)`; fewer are enough where
// cells share parts. With k times fewer they walk the tables about k times: checks 6 and 7 and the sizes class by class, check 8 window by
// window. Where fewer than 8192 are lent and do not do, an array of 8192 numbers on the stack serves instead. Only where that is too little
// for 1024 classes, each cell or part is compared with each other one. What the lent numbers hold afterwards is left free.
#![tactic(auto)]

ghost use Rattle.std.specs.Prelude.{◌≡◌, false, map, ◌≤◌, ◌<◌, eqb, length};
ghost use Rattle.rules.specs.Lists.{any, repeats, cut, key_of, same};
ghost use Rattle.rules.specs.Mesh.{topology};
ghost use Rattle.rules.specs.Split.{faces};
ghost use Rattle.rules.specs.Counts.{sizes};
ghost use Rattle.rules.specs.Refusals.{repeated_corner, duplicate_cell, table_checks};
ghost use Rattle.tables.specs.Lent.{mesh_in};
ghost use Rattle.numbering.specs.Parts.{part_corners, cell_corners};
ghost use Rattle.checks.specs.Walk.{parts_counted};
ghost use Rattle.checks.specs.Checked.{MeshChecked};

use crate::cells::PlainMesh;
use crate::parts::Part;
use numbering::count;
use numbering::parts::Parts;
use rules::{Refusal, Sizes};
use tables::MeshTables;

// Checks 6 and 7 and the counts of parts, class by class.
pub mod by_classes;
// The cells by themselves: check 5.
pub mod cells;
// Edges, faces or cells in classes, with a table for one class at a time.
pub mod classes;
// The corner across a face's least corner.
pub mod faces;
// Check 8 by marks, in windows of vertices.
pub mod marks;
// Checks 6 and 7 and the counts of parts with no memory.
pub mod pairwise;
// The edges and faces by number.
pub mod parts;
// The tables: checks 1 to 4.
pub mod table_checks;
// A table of keys with tags.
pub mod tagged;

// Whether two cells of a table have one corner set; a cell has C corners, and the parts are the cells themselves. That no cell of the table names
// a corner twice is asked here and twice below: a struct of one slice would be made for each table, where `PlainMesh` has all four.
#[tactic(auto, using(crate::proofs::Duplicates::duplicates_by_count, crate::proofs::Duplicates::cell_keys))]
fn has_duplicate<const C: usize>(words: &mut [u32], of: Parts, cells: &[u32]) -> bool
    requires whole_cells { (C ≡ cell_corners of) × (part_corners of ≡ cell_corners of) }
    requires no_repeated_corner { any (repeats eqb) (cut C cells.now) ≡ false }
    ensures { result ≡ repeats same (map key_of (cut C cells.now)) }
{
    match count::count_table_of::<C>(words, of, cells) {
        Some(n) => n != cells.len() / C,
        None => by_classes::has_duplicate(words, C, cells),
    }
}

// 6, duplicate cell (rule 7.6).
#[tactic(auto, using(crate::proofs::ByKind::duplicate_tables))]
fn has_duplicate_cell(words: &mut [u32], mesh: PlainMesh) -> bool
    ensures { result ≡ duplicate_cell (topology (mesh_in mesh.entry.tables)) }
{
    has_duplicate::<8>(words, Parts::Hexes, mesh.tables.hexes)
        || has_duplicate::<4>(words, Parts::Quads, mesh.tables.quads)
        || has_duplicate::<2>(words, Parts::Segments, mesh.tables.segments)
        || has_duplicate::<1>(words, Parts::Points, mesh.tables.points)
}

// 5 to 8 in order, of a mesh that passes 1 to 4, with these numbers; the answer is how many faces it has, since check 7 meets them all.
#[tactic(auto, using(crate::proofs::Passed::tables_pass, crate::proofs::Passed::cells_decide, crate::proofs::ByKind::isolated_tables))]
fn check_cells_with(words: &mut [u32], mesh: MeshTables) -> Result<usize, Refusal>
    requires words_nonzero { 0 < length words.old }
    requires tables_pass { table_checks (mesh_in mesh) 0 ≡ 0 }
    ensures { MeshChecked (mesh_in mesh.entry) result }
{
    if cells::has_repeated_corner(mesh) {
        return Err(Refusal::RepeatedCorner);
    }
    let plain = PlainMesh { tables: mesh };
    if has_duplicate_cell(words, plain) {
        return Err(Refusal::DuplicateCell);
    }
    // 7, mismatched face (rule 7.7).
    let faces = by_classes::check_faces(words, plain)?;
    // 8, isolated vertex (rule 7.8).
    if marks::has_isolated_vertex(words, mesh.vertices.len() / 3, mesh) {
        return Err(Refusal::IsolatedVertex);
    }
    Ok(faces)
}

// How many numbers an array has that serves where fewer are lent.
pub const OWN_NUMBERS: usize = 8192;

// Whether an array of `OWN_NUMBERS` serves better than so many lent ones: these are fewer, and may not hold the edges and faces of cells with
// so many corners. Three functions lend such an array by it, two here and one of the irregular count. One that takes what each does as a closure
// would be no plainer: each closure would have to say the contract again that its function has. Nor is a function that adds up the corners: its
// contract would be longer than the sum.
pub fn is_little(words: usize, corners: usize) -> bool
    ensures { result ≡ false → 6 ≤ words }
{
    words < OWN_NUMBERS && words / 6 <= corners
}

// 5 to 8 in order, with an array of its own. It is not inlined, here and in `edge_count_alone`: in one caller both arrays would lie on the stack
// at once.
#[inline(never)]
fn check_cells_alone(mesh: MeshTables) -> Result<usize, Refusal>
    requires { table_checks (mesh_in mesh) 0 ≡ 0 }
    ensures { MeshChecked (mesh_in mesh.entry) result }
{
    check_cells_with(&mut [0u32; OWN_NUMBERS], mesh)
}

// 5 to 8 in order. Where little is lent, an array of its own serves instead.
fn check_cells(words: &mut [u32], mesh: MeshTables) -> Result<usize, Refusal>
    requires { table_checks (mesh_in mesh) 0 ≡ 0 }
    ensures { MeshChecked (mesh_in mesh.entry) result }
{
    let corners = mesh.hexes.len() + mesh.quads.len() + mesh.segments.len() + mesh.points.len();
    if is_little(words.len(), corners) {
        return check_cells_alone(mesh);
    }
    check_cells_with(words, mesh)
}

// 1 to 8 in order: the first that fails; of a mesh that passes them, how many faces it has.
#[tactic(auto, using(crate::proofs::Passed::tables_refuse))]
pub fn check_mesh(mesh: MeshTables, words: &mut [u32]) -> Result<usize, Refusal>
    ensures { MeshChecked (mesh_in mesh.entry) result }
{
    table_checks::check_tables(mesh)?;
    check_cells(words, mesh)
}

// How many edges there are, with these numbers.
fn edge_count_with(words: &mut [u32], mesh: PlainMesh) -> usize
    ensures { result ≡ parts_counted Part.Edge mesh.entry.tables }
{
    match count::count_edges(
        words,
        mesh.tables.hexes,
        mesh.tables.quads,
        mesh.tables.segments,
    ) {
        Some(n) => n,
        None => by_classes::edge_count(words, mesh),
    }
}

// How many edges there are, with an array of its own.
#[inline(never)]
fn edge_count_alone(mesh: PlainMesh) -> usize
    ensures { result ≡ parts_counted Part.Edge mesh.entry.tables }
{
    edge_count_with(&mut [0u32; OWN_NUMBERS], mesh)
}

// How many edges there are; an array of its own serves as above. Segments by themselves are edges, each its own: no two have one corner
// set.
fn edge_count(words: &mut [u32], mesh: PlainMesh) -> usize
    requires { duplicate_cell (topology (mesh_in mesh.tables)) ≡ false }
    ensures { result ≡ parts_counted Part.Edge mesh.entry.tables }
{
    if mesh.tables.hexes.is_empty() && mesh.tables.quads.is_empty() {
        return mesh.tables.segments.len() / 2;
    }
    let corners = mesh.tables.hexes.len() + mesh.tables.quads.len() + mesh.tables.segments.len();
    if is_little(words.len(), corners) {
        return edge_count_alone(mesh);
    }
    edge_count_with(words, mesh)
}

// The sizes of a mesh that passes checks 5 and 6 and whose faces are counted: what its finished counts follow from.
pub fn mesh_sizes(mesh: MeshTables, face_count: usize, words: &mut [u32]) -> Sizes
    requires no_repeated_corner { repeated_corner (topology (mesh_in mesh)) ≡ false }
    requires no_duplicate_cell { duplicate_cell (topology (mesh_in mesh)) ≡ false }
    requires face_count_value { face_count ≡ length (faces (topology (mesh_in mesh))) }
    ensures { result ≡ sizes (topology (mesh_in mesh.entry)) }
{
    Sizes {
        edges: edge_count(words, PlainMesh { tables: mesh }) as u64,
        faces: face_count as u64,
        ..mesh.places()
    }
}
