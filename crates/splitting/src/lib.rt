// One round's fine cells (section 2 of docs/SPECIFICATION.md).
// Rests on `rules` (what a split is), `soundness` (the numbers of the fine vertices), `numbering` (edges and faces in the order first met).
// Promises: each table of children is that of the rules, at the front of the lent table; the rest of it is unchanged.
#![tactic(auto)]

ghost use Rattle.std.specs.Prelude.{◌≡◌, length};
ghost use Rattle.rules.specs.Lists.{concat, overwritten};
ghost use Rattle.rules.specs.Mesh.{topology};
ghost use Rattle.rules.specs.Split.{split};
ghost use Rattle.tables.specs.Lent.{mesh_in};
ghost use Rattle.splitting.specs.Ready.{Ready, Places};

use cells::PartTables;
use given::Base;
use kinds::CellKind;
use tables::MeshTables;

// The kinds of cells that are split.
pub mod kinds;

// What stays while the cells of a kind are split.
pub mod given;

// A cell's fine vertices and children.
pub mod cells;

// Splits a sound mesh that has so many edges and faces. Its coordinates are not read; the contract speaks of the mesh. The children's tables are
// lent one by one: `LentTables` has five tables, and no coordinates are written here.
pub fn split(
    mesh: MeshTables,
    edges: usize,
    faces: usize,
    words: &mut [u32],
    out_hexes: &mut [u32],
    out_quads: &mut [u32],
    out_segments: &mut [u32],
    out_points: &mut [u32],
)
    requires ready { Ready (mesh_in mesh) edges faces (length words.old) }
    requires places { Places (mesh_in mesh) (length out_hexes.old) (length out_quads.old) (length out_segments.old) (length out_points.old) }
    ensures out_hexes_after { let t = topology (mesh_in mesh.entry) in out_hexes.new ≡ overwritten out_hexes.old (concat (split t).hexes) }
    ensures out_quads_after { let t = topology (mesh_in mesh.entry) in out_quads.new ≡ overwritten out_quads.old (concat (split t).quads) }
    ensures out_segments_after { let t = topology (mesh_in mesh.entry) in out_segments.new ≡ overwritten out_segments.old (concat (split t).segments) }
    ensures out_points_after { let t = topology (mesh_in mesh.entry) in out_points.new ≡ overwritten out_points.old (concat (split t).points) }
{
    let vertices = mesh.vertices.len() / 3;
    let base = Base {
        vertices,
        edges,
        faces,
    };
    let mut parts = PartTables::new(words, base);
    let own = vertices + (edges + faces);
    parts.split_cells(base, CellKind::Hex, mesh.hexes, own, out_hexes);
    parts.split_cells(base, CellKind::Quad, mesh.quads, 0, out_quads);
    parts.split_cells(base, CellKind::Segment, mesh.segments, 0, out_segments);
    memory::copy(mesh.points, out_points);
}
