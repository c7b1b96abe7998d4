// The checks and then the rounds.
ghost use Rattle.std.specs.Prelude.{◌≡◌};
ghost use Rattle.rules.specs.Answers.{counts_answer_of};
ghost use Rattle.rules.specs.EntryPoints.{refining_answer, refining_output};
ghost use Rattle.tables.specs.Lent.{mesh_in, mesh_at, SameSlices};
ghost use Rattle.rounds.specs.Working.{SameNumbers};

use crate::lending::Lent;
use counting::counts_in;
use plan::plan;
use rounds::{WorkingNumbers, make_rounds};
use rules::{Counts, Refusal};
use tables::{LentTables, MeshTables};

// The answer and the output tables; what is left in the working memory is not said.
pub fn run(
    mesh: MeshTables,
    rounds: u32,
    output: &mut LentTables,
    working: &mut LentTables,
    numbers: &mut WorkingNumbers,
) -> Result<Counts, Refusal>
    ensures answer { counts_answer_of result ≡ refining_answer (mesh_in mesh.entry) rounds (mesh_at output.old) (mesh_at working.old) numbers.old.words.now numbers.old.longs.now }
    ensures output { mesh_at output.new ≡ refining_output (mesh_in mesh.entry) rounds (mesh_at output.old) (mesh_at working.old) numbers.old.words.now numbers.old.longs.now }
    ensures same_output { SameSlices output.old output.new }
    ensures same_working { SameSlices working.old working.new }
    ensures same_numbers { SameNumbers numbers.old numbers.new }
{
    let lent = Lent::by(output, working, numbers);
    let growth = plan(mesh, rounds, numbers.words)?;
    if lent.is_short(growth.finished) {
        return Err(Refusal::ShortBuffer);
    }
    make_rounds(mesh, rounds, growth.start, output, working, numbers);
    Ok(counts_in(growth.finished))
}
