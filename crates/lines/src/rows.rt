// The lines of a mesh: each function appends one kind of them.
ghost use Rattle.std.specs.Prelude.{[], ◌∷◌, ◌+◌, ◌*◌, ◌/◌, ◌<◌, ◌≤◌, length};
ghost use Rattle.rules.specs.Lists.{concat_map, cut, up_from};
ghost use Rattle.rules.specs.Mesh.{topology};
ghost use Rattle.rules.specs.Counts.{counts_of};
ghost use Rattle.rules.specs.Listing.{mesh_line, vertex_line, cell_lines, mesh_lines, refused_line};
ghost use Rattle.tables.specs.Lent.{mesh_in};
ghost use Rattle.lines.specs.Appended.{Room, Appended, Printed};
ghost use Rattle.lines.specs.Kinds.{corner_count, letter_of};
ghost use Rattle.lines.specs.Fitting.{Fitting, output_size};

use crate::kinds::Kind;
use crate::ranks::rank_of;
use crate::text::Text;
use counting::counts_in;
use tables::MeshTables;

// A mesh of the listing program's sizes.
#[derive(Clone, Copy)]
pub struct FittingMesh<'a> {
    pub tables: MeshTables<'a>,
    ghost fits: { Fitting (mesh_in tables) },
}

// The first line: `mesh` and the counts.
fn push_mesh_line(fitting: FittingMesh, out: &mut Text)
    requires { Room out.old (mesh_line (counts_of (mesh_in fitting.tables))) }
    ensures { Appended out.old out.new (mesh_line (counts_of (mesh_in fitting.entry.tables))) }
{
    let counts = counts_in(fitting.tables.places());
    let numbers = [
        counts.vertices,
        counts.hexes,
        counts.quads,
        counts.segments,
        counts.points,
    ];
    out.push_line(b"mesh", &numbers);
}

// The lines of a table: for each cell the letter of its kind and its corners, 11 bytes at most for a corner.
fn push_cell_lines(kind: Kind, table: &[u32], out: &mut Text)
    requires { out.old.length + (11 * corner_count kind + 2) * (length table.now / corner_count kind) ≤ length out.old.buffer.now }
    ensures lines { Appended out.old out.new (cell_lines (letter_of kind ∷ []) (cut (corner_count kind) table.now)) }
    ensures short { length (cell_lines (letter_of kind ∷ []) (cut (corner_count kind) table.now)) ≤ (11 * corner_count kind + 2) * (length table.now / corner_count kind) }
{
    let word = [kind.letter()];
    for cell in table.chunks_exact(kind.corner_count()) {
        out.push_line(&word, cell);
    }
}

// The line of vertex v: its number, its coordinates, its rank and its valence.
fn push_vertex_line(v: u32, fitting: FittingMesh, out: &mut Text)
    requires v_in_bounds { v < length (mesh_in fitting.tables).vertices / 3 }
    requires room { let m = mesh_in fitting.tables in Room out.old (vertex_line m (topology m) v) }
    ensures { let m = mesh_in fitting.entry.tables in Appended out.old out.new (vertex_line m (topology m) v) }
{
    let mesh = fitting.tables;
    let i = 3 * v as usize;
    let ranked = rank_of(v, mesh);
    let numbers = [
        i64::from(v),
        i64::from(mesh.vertices[i]),
        i64::from(mesh.vertices[i + 1]),
        i64::from(mesh.vertices[i + 2]),
        ranked.rank as i64,
        ranked.valence as i64,
    ];
    out.push_line(b"v", &numbers);
}

// The lines of all vertices. A vertex is its number, by which its corners are looked for: so a range, and not a walk through coordinates.
fn push_vertex_lines(fitting: FittingMesh, out: &mut Text)
    requires { let m = mesh_in fitting.tables in Room out.old (concat_map (vertex_line m (topology m)) (up_from 0 (length m.vertices / 3))) }
    ensures { let m = mesh_in fitting.entry.tables in Appended out.old out.new (concat_map (vertex_line m (topology m)) (up_from 0 (length m.vertices / 3))) }
{
    let n = (fitting.tables.vertices.len() / 3) as u32;
    for v in 0..n {
        push_vertex_line(v, fitting, out);
    }
}

// All lines of a mesh; cells come kind after kind.
pub fn push_mesh_lines(fitting: FittingMesh, out: &mut Text)
    requires { out.old.length + output_size ≤ length out.old.buffer.now }
    ensures { Printed out.old out.new (mesh_lines (mesh_in fitting.entry.tables)) }
{
    let mesh = fitting.tables;
    push_mesh_line(fitting, out);
    push_vertex_lines(fitting, out);
    push_cell_lines(Kind::Hex, mesh.hexes, out);
    push_cell_lines(Kind::Quad, mesh.quads, out);
    push_cell_lines(Kind::Segment, mesh.segments, out);
    push_cell_lines(Kind::Point, mesh.points, out);
}

// The one line of a refusal: a word of 7 bytes, a space, 10 digits at most, a line feed.
// A number and no `Refusal`: its contract speaks of every number, and a `Refusal` would ask more.
pub fn push_refused_line(number: u32, out: &mut Text)
    requires { out.old.length + 19 ≤ length out.old.buffer.now }
    ensures { Printed out.old out.new (refused_line number) }
{
    out.push_line(b"refused", &[number]);
}
