// Refining a stored mesh on tables of the fixed sizes, 1,000 vertices and 256 cells of each kind: what the viewer's call and the listing
// program share. The tables of the mesh that is read and all working memory are local arrays, since there is no heap.
// Rests on `stored` for reading and on `refine`. Promises the rules' answer and output tables, by two equations.
#![tactic(auto)]

ghost use Rattle.std.specs.Prelude.{◌≡◌};
ghost use Rattle.rules.specs.Mesh.{topology};
ghost use Rattle.rules.specs.Averaging.{refined};
ghost use Rattle.rules.specs.Answers.{counts_answer_of};
ghost use Rattle.rules.specs.Counts.{counts_of, finished_counts};
ghost use Rattle.rules.specs.EntryPoints.{counts_answer, result_tables, refining_refusal};
ghost use Rattle.rules.specs.StoredForm.{stored_mesh};
ghost use Rattle.rules.specs.Viewer.{fixed_counts, fixed_lent, stored_refining_refusal};
ghost use Rattle.tables.specs.Lent.{mesh_in, mesh_at, SameSlices};

pub use arrays::Arrays;
use refine::refine;
use rounds::WorkingNumbers;
use rules::{Counts, Refusal};
use stored::read;
use tables::{LentTables, MeshTables};

// The tables of a mesh that is read, and those to work in.
pub mod arrays;

// Refines a mesh, with working memory of the fixed sizes.
fn refine_mesh(mesh: MeshTables, rounds: u32, output: &mut LentTables) -> Result<Counts, Refusal>
    requires { counts_of (mesh_at output.old) ≡ fixed_counts }
    ensures answer { let m = mesh_in mesh.entry in
        counts_answer_of result ≡ counts_answer (refining_refusal m rounds fixed_lent) (finished_counts rounds (topology m)) }
    ensures output { let m = mesh_in mesh.entry in
        mesh_at output.new ≡ result_tables (refining_refusal m rounds fixed_lent) (mesh_at output.old) (refined rounds m) }
    ensures same_slices { SameSlices output.old output.new }
{
    let mut arrays = Arrays::new();
    let mut working = arrays.lend();
    let mut words = [0u32; 8000];
    let mut longs = [0u64; 3000];
    let mut numbers = WorkingNumbers {
        words: &mut words,
        longs: &mut longs,
    };
    refine(mesh, rounds, output, &mut working, &mut numbers)
}

// Reads a stored mesh and refines it.
pub fn refine_stored(bytes: &[u8], rounds: u32, output: &mut LentTables) -> Result<Counts, Refusal>
    requires { counts_of (mesh_at output.old) ≡ fixed_counts }
    ensures answer { let s = bytes.now in
        counts_answer_of result ≡ counts_answer (stored_refining_refusal s rounds) (finished_counts rounds (topology (stored_mesh s))) }
    ensures output { let s = bytes.now in
        mesh_at output.new ≡ result_tables (stored_refining_refusal s rounds) (mesh_at output.old) (refined rounds (stored_mesh s)) }
    ensures same_slices { SameSlices output.old output.new }
{
    let mut arrays = Arrays::new();
    let mut tables = arrays.lend();
    let counts = read(bytes, &mut tables)?;
    refine_mesh(tables.as_mesh().front(counts), rounds, output)
}
