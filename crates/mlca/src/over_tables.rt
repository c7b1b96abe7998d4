// The entry points over tables, for C: refining, the counts in a header, reading, writing, the irregular count, the millimetre report. Their
// arguments are C's: slices one by one.
ghost use Rattle.std.specs.Prelude.{◌≡◌, true, suc, ◌*◌, length, take, replicate};
ghost use Rattle.rules.specs.Mesh.{mesh};
ghost use Rattle.rules.specs.Accuracy.{Property3};
ghost use Rattle.rules.specs.Counts.{counts_of};
ghost use Rattle.rules.specs.EntryPoints.{front, finished_answer, refining_answer, refining_output, range_kept, cleared_tables, cleared, irregular_answer, millimetres_answer};
ghost use Rattle.rules.specs.StoredForm.{stored_form, stored_mesh, header_answer, reading_refusal, reading_answer, reading_output, writing_refusal, writing_answer, writing_output};

use rounds::WorkingNumbers;
use rules::{CountAnswer, CountsAnswer, MillimetresAnswer};
use tables::{LentTables, MeshTables};

// Refining, for every input: the answer of rule 9.2; the finished mesh at the front of the output tables, which a refusal leaves as they were;
// all working memory zero; of each finished vertex and axis the third property; and every coordinate of every round in range.
// Longer than 40 lines by C's arguments, slices one by one, and by a contract over them: the body only gathers them.
#[unsafe(no_mangle)]
pub extern "C" fn mlca_refine_tables(
    vertices: &[i32],
    hexes: &[u32],
    quads: &[u32],
    segments: &[u32],
    points: &[u32],
    rounds: u32,
    output_vertices: &mut [i32],
    output_hexes: &mut [u32],
    output_quads: &mut [u32],
    output_segments: &mut [u32],
    output_points: &mut [u32],
    working_vertices: &mut [i32],
    working_hexes: &mut [u32],
    working_quads: &mut [u32],
    working_segments: &mut [u32],
    working_points: &mut [u32],
    numbers32: &mut [u32],
    numbers64: &mut [u64],
) -> CountsAnswer
    ensures answer { let m = mesh vertices.now hexes.now quads.now segments.now points.now in
        let out = mesh output_vertices.old output_hexes.old output_quads.old output_segments.old output_points.old in
        let work = mesh working_vertices.old working_hexes.old working_quads.old working_segments.old working_points.old in
        result ≡ refining_answer m rounds out work numbers32.old numbers64.old }
    ensures output { let m = mesh vertices.now hexes.now quads.now segments.now points.now in
        let out = mesh output_vertices.old output_hexes.old output_quads.old output_segments.old output_points.old in
        let work = mesh working_vertices.old working_hexes.old working_quads.old working_segments.old working_points.old in
        mesh output_vertices.new output_hexes.new output_quads.new output_segments.new output_points.new ≡ refining_output m rounds out work numbers32.old numbers64.old }
    ensures tables { let work = mesh working_vertices.old working_hexes.old working_quads.old working_segments.old working_points.old in
        mesh working_vertices.new working_hexes.new working_quads.new working_segments.new working_points.new ≡ cleared_tables work }
    ensures words { numbers32.new ≡ cleared numbers32.old }
    ensures longs { numbers64.new ≡ cleared numbers64.old }
    ensures accuracy { let m = mesh vertices.now hexes.now quads.now segments.now points.now in
        (result.refusal ≡ 0 → Property3 rounds m (take (3 * result.counts.vertices) output_vertices.new)) }
    ensures range { let m = mesh vertices.now hexes.now quads.now segments.now points.now in
        (result.refusal ≡ 0 → range_kept rounds m ≡ replicate (suc rounds) true) }
{
    let mesh = MeshTables {
        vertices,
        hexes,
        quads,
        segments,
        points,
    };
    let mut output = LentTables {
        vertices: output_vertices,
        hexes: output_hexes,
        quads: output_quads,
        segments: output_segments,
        points: output_points,
    };
    let mut working = LentTables {
        vertices: working_vertices,
        hexes: working_hexes,
        quads: working_quads,
        segments: working_segments,
        points: working_points,
    };
    let mut numbers = WorkingNumbers {
        words: numbers32,
        longs: numbers64,
    };
    CountsAnswer::from(refine::refine(mesh, rounds, &mut output, &mut working, &mut numbers))
}

// The counts in a stored mesh's header, so that tables can be lent for reading. Neither the index width nor what stands behind the header is
// looked at.
#[unsafe(no_mangle)]
pub extern "C" fn mlca_stored_counts(stored: &[u8]) -> CountsAnswer
    ensures { result ≡ header_answer stored.now }
{
    CountsAnswer::from(stored::header_counts(stored))
}

// The counts of a mesh after its rounds, to lend memory by. The working numbers end all zero, and how many there are alters no answer.
#[unsafe(no_mangle)]
pub extern "C" fn mlca_finished_counts(
    vertices: &[i32],
    hexes: &[u32],
    quads: &[u32],
    segments: &[u32],
    points: &[u32],
    rounds: u32,
    numbers: &mut [u32],
) -> CountsAnswer
    ensures answer { result ≡ finished_answer (mesh vertices.now hexes.now quads.now segments.now points.now) rounds }
    ensures words { numbers.new ≡ cleared numbers.old }
{
    let mesh = MeshTables {
        vertices,
        hexes,
        quads,
        segments,
        points,
    };
    CountsAnswer::from(plan::finished_counts(mesh, rounds, numbers))
}

// Reads a stored mesh into the fronts of the lent tables. The mesh there, written into as many bytes, gives the same bytes.
#[unsafe(no_mangle)]
pub extern "C" fn mlca_read_tables(
    stored: &[u8],
    vertices: &mut [i32],
    hexes: &mut [u32],
    quads: &mut [u32],
    segments: &mut [u32],
    points: &mut [u32],
) -> CountsAnswer
    ensures answer { let tables = mesh vertices.old hexes.old quads.old segments.old points.old in result ≡ reading_answer stored.now tables }
    ensures output { let tables = mesh vertices.old hexes.old quads.old segments.old points.old in mesh vertices.new hexes.new quads.new segments.new points.new ≡ reading_output stored.now tables }
    ensures inverse { let m = front result.counts (mesh vertices.new hexes.new quads.new segments.new points.new) in (result.refusal ≡ 0 → (writing_refusal m (length stored.now) ≡ 0) × (stored_form m ≡ stored.now)) }
{
    let mut tables = LentTables {
        vertices,
        hexes,
        quads,
        segments,
        points,
    };
    CountsAnswer::from(stored::read(stored, &mut tables))
}

// Writes a mesh into the front of the lent buffer. The bytes there, read into tables as long, give the same mesh.
#[unsafe(no_mangle)]
pub extern "C" fn mlca_write_tables(
    vertices: &[i32],
    hexes: &[u32],
    quads: &[u32],
    segments: &[u32],
    points: &[u32],
    res: &mut [u8],
) -> CountAnswer
    ensures answer { let m = mesh vertices.now hexes.now quads.now segments.now points.now in result ≡ writing_answer m res.old }
    ensures output { let m = mesh vertices.now hexes.now quads.now segments.now points.now in res.new ≡ writing_output m res.old }
    ensures inverse { let m = mesh vertices.now hexes.now quads.now segments.now points.now in let s = take result.count res.new in (result.refusal ≡ 0 → (reading_refusal s (counts_of m) ≡ 0) × (stored_mesh s ≡ m)) }
{
    let mesh = MeshTables {
        vertices,
        hexes,
        quads,
        segments,
        points,
    };
    CountAnswer::from(stored::write(mesh, res))
}

// How many vertices are irregular. The working numbers end all zero, and how many there are alters no answer.
#[unsafe(no_mangle)]
pub extern "C" fn mlca_irregular_count_tables(
    vertices: &[i32],
    hexes: &[u32],
    quads: &[u32],
    segments: &[u32],
    points: &[u32],
    numbers: &mut [u32],
) -> CountAnswer
    ensures answer { result ≡ irregular_answer (mesh vertices.now hexes.now quads.now segments.now points.now) }
    ensures words { numbers.new ≡ cleared numbers.old }
{
    let mesh = MeshTables {
        vertices,
        hexes,
        quads,
        segments,
        points,
    };
    CountAnswer::from(irregular::irregular_count(mesh, numbers))
}

// A vertex's position in millimetres, each the exact quotient.
#[unsafe(no_mangle)]
pub extern "C" fn mlca_millimetres(x: i32, y: i32, z: i32) -> MillimetresAnswer
    ensures { result ≡ millimetres_answer x y z }
{
    MillimetresAnswer::from(millimetres::millimetres(x, y, z))
}
