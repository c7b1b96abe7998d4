// Refining (rules 9.1 to 9.3): checks 1 to 11, the rounds, the finished mesh in the output tables, working memory all zero.
// Rests on `plan` for checks 1 to 10, on `rounds` for the rounds, on `counting` for check 11, on `tables` for what is lent.
// Promises of `refine`, for every input: the rules' answer, output tables and cleared memory, the third property of what it wrote, and that no
// round leaves the range of coordinates.
#![tactic(auto)]

ghost use Rattle.std.specs.Prelude.{◌≡◌, true, suc, ◌*◌, take, replicate, IfOk, OnOk};
ghost use Rattle.rules.specs.Accuracy.{Property3};
ghost use Rattle.rules.specs.Answers.{counts_answer_of};
ghost use Rattle.rules.specs.EntryPoints.{refining_answer, refining_output, range_kept, cleared_tables, cleared};
ghost use Rattle.tables.specs.Lent.{mesh_in, mesh_at, SameSlices};
ghost use Rattle.rounds.specs.Working.{SameNumbers};

use crate::run::run;
use rounds::WorkingNumbers;
use rules::{Counts, Refusal};
use tables::{LentTables, MeshTables};

// Check 11.
mod lending;
// The checks and then the rounds.
mod run;

// Refining, for every input: the answer of rule 9.2; the finished mesh at the front of the output tables, which a refusal leaves as they were;
// all working memory zero; of each finished vertex and axis the third property; and every coordinate of every round in range.
#[tactic(auto, unfolding(rules::specs::EntryPoints::cleared))]
pub fn refine(
    mesh: MeshTables,
    rounds: u32,
    output: &mut LentTables,
    working: &mut LentTables,
    numbers: &mut WorkingNumbers,
) -> Result<Counts, Refusal>
    ensures answer { counts_answer_of result ≡ refining_answer (mesh_in mesh.entry) rounds (mesh_at output.old) (mesh_at working.old) numbers.old.words.now numbers.old.longs.now }
    ensures output { mesh_at output.new ≡ refining_output (mesh_in mesh.entry) rounds (mesh_at output.old) (mesh_at working.old) numbers.old.words.now numbers.old.longs.now }
    ensures tables { mesh_at working.new ≡ cleared_tables (mesh_at working.old) }
    ensures words { numbers.new.words.now ≡ cleared numbers.old.words.now }
    ensures longs { numbers.new.longs.now ≡ cleared numbers.old.longs.now }
    ensures accuracy { IfOk result (λ counts. Property3 rounds (mesh_in mesh.entry) (take (3 * counts.vertices) output.new.vertices.now)) }
    ensures range { OnOk result (range_kept rounds (mesh_in mesh.entry) ≡ replicate (suc rounds) true) }
    ensures same_output { SameSlices output.old output.new }
    ensures same_working { SameSlices working.old working.new }
    ensures same_numbers { SameNumbers numbers.old numbers.new }
{
    let refined = run(mesh, rounds, output, working, numbers);
    working.clear();
    numbers.clear();
    refined
}
