// One round, and the mesh at the front of the output tables refined in place.
ghost use Rattle.std.specs.Prelude.{◌≡◌};
ghost use Rattle.rules.specs.Mesh.{mesh as mesh_of};
ghost use Rattle.rules.specs.Averaging.{round, refined};
ghost use Rattle.rules.specs.EntryPoints.{result_tables};
ghost use Rattle.tables.specs.Lent.{mesh_in, mesh_at, SameSlices};
ghost use Rattle.rounds.specs.Front.{sized_front, Room};
ghost use Rattle.rounds.specs.Working.{SameNumbers};
ghost use Rattle.rounds.specs.Ready.{Ready, ReadyFor};

use crate::working::WorkingNumbers;
use rules::Sizes;
use tables::{LentTables, MeshTables};

// One round, from a mesh to the fronts of tables. They are lent one by one, since four of them are read while the coordinates are written:
// behind one `&mut` the borrow checker does not let them, and working numbers that are fields cost refining 2 % more instructions.
// Kept apart from its caller: inlined there, refining takes up to 0.7 % more instructions.
#[inline(never)]
fn round(
    sizes: Sizes,
    mesh: MeshTables,
    vertices: &mut [i32],
    hexes: &mut [u32],
    quads: &mut [u32],
    segments: &mut [u32],
    points: &mut [u32],
    words: &mut [u32],
    longs: &mut [u64],
)
    requires { let out = mesh_of vertices.old hexes.old quads.old segments.old points.old in
        Ready (mesh_in mesh) sizes out words.old longs.old }
    ensures { let old = mesh_of vertices.old hexes.old quads.old segments.old points.old in
        mesh_of vertices.new hexes.new quads.new segments.new points.new ≡ result_tables 0 old (round (mesh_in mesh.entry)) }
{
    let edges = sizes.edges as usize;
    let faces = sizes.faces as usize;
    splitting::split(mesh, edges, faces, words, hexes, quads, segments, points);
    let finer = counting::next_sizes(sizes);
    // No `front`: the finer coordinates are not there yet.
    let fine = MeshTables {
        vertices: mesh.vertices,
        hexes: &hexes[..8 * finer.hexes as usize],
        quads: &quads[..4 * finer.quads as usize],
        segments: &segments[..2 * finer.segments as usize],
        points: &points[..finer.points as usize],
    };
    let count = finer.vertices as usize;
    averaging::average(mesh, fine, count, words, longs, vertices);
}

// The same to the fronts of the output tables.
fn round_tables(
    sizes: Sizes,
    mesh: MeshTables,
    output: &mut LentTables,
    numbers: &mut WorkingNumbers,
)
    requires { Ready (mesh_in mesh) sizes (mesh_at output.old) numbers.old.words.now numbers.old.longs.now }
    ensures same_output { SameSlices output.old output.new }
    ensures same_numbers { SameNumbers numbers.old numbers.new }
    ensures refined { mesh_at output.new ≡ result_tables 0 (mesh_at output.old) (round (mesh_in mesh.entry)) }
{
    let LentTables {
        vertices,
        hexes,
        quads,
        segments,
        points,
    } = output;
    let WorkingNumbers { words, longs } = numbers;
    round(
        sizes, mesh, vertices, hexes, quads, segments, points, words, longs,
    );
}

// The mesh of the given sizes at the front of the output tables is copied to the working tables and refined back.
fn turn(
    sizes: Sizes,
    output: &mut LentTables,
    working: &mut LentTables,
    numbers: &mut WorkingNumbers,
)
    requires room { Room sizes (mesh_at working.old) }
    requires ready { Room sizes (mesh_at output.old) × Ready (sized_front sizes (mesh_at output.old)) sizes (mesh_at output.old) numbers.old.words.now numbers.old.longs.now }
    ensures same_output { SameSlices output.old output.new }
    ensures same_working { SameSlices working.old working.new }
    ensures same_numbers { SameNumbers numbers.old numbers.new }
    ensures refined { mesh_at output.new ≡ result_tables 0 (mesh_at output.old) (round (sized_front sizes (mesh_at output.old))) }
{
    let counts = counting::counts_in(sizes);
    working.copy_from(output.as_mesh().front(counts));
    round_tables(sizes, working.as_mesh().front(counts), output, numbers);
}

// The rounds, one after the other, of the mesh at the front of the output tables. The range only counts them: a round does not know its number.
pub fn turns(
    rounds: u32,
    start: Sizes,
    output: &mut LentTables,
    working: &mut LentTables,
    numbers: &mut WorkingNumbers,
)
    requires { ReadyFor rounds (sized_front start (mesh_at output.old)) start (mesh_at output.old) (mesh_at working.old) numbers.old }
    ensures same_output { SameSlices output.old output.new }
    ensures same_working { SameSlices working.old working.new }
    ensures same_numbers { SameNumbers numbers.old numbers.new }
    ensures refined { mesh_at output.new ≡ result_tables 0 (mesh_at output.old) (refined rounds (sized_front start (mesh_at output.old))) }
{
    let mut sizes = start;
    for _ in 0..rounds {
        turn(sizes, output, working, numbers);
        sizes = counting::next_sizes(sizes);
    }
}
