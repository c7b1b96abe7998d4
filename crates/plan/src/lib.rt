// Refining before any memory is lent for it: checks 1 to 10, and the sizes before the rounds and after them.
// Rests on `checks` for checks 1 to 8 and the sizes, on `counting` for the sizes after the rounds.
// Promises of `finished_counts`, for every input: the rules' answer, and the working numbers all zero.
#![tactic(auto)]

ghost use Rattle.std.specs.Prelude.{◌≡◌};
ghost use Rattle.rules.specs.Answers.{counts_answer_of};
ghost use Rattle.rules.specs.EntryPoints.{finished_answer, cleared};
ghost use Rattle.tables.specs.Lent.{mesh_in};
ghost use Rattle.plan.specs.Planned.{Planned};

use rules::{Counts, Refusal, Sizes};
use tables::MeshTables;

// The answer that a refusal's number leads to.
pub mod answer;

// The sizes before the rounds and after them.
#[derive(Clone, Copy)]
pub struct Growth {
    pub start: Sizes,
    pub finished: Sizes,
}

// The first refusal of checks 1 to 10, or the sizes; what is left in the working numbers is not said.
pub fn plan(mesh: MeshTables, rounds: u32, words: &mut [u32]) -> Result<Growth, Refusal>
    ensures { Planned (mesh_in mesh.entry) rounds result }
{
    let faces = checks::check_mesh(mesh, words)?;
    if 8 < rounds {
        return Err(Refusal::TooManyRounds);
    }
    let start = checks::mesh_sizes(mesh, faces, words);
    let finished = counting::sizes_after(rounds, start);
    if counting::out_of_range(finished) {
        return Err(Refusal::ResultTooLarge);
    }
    Ok(Growth { start, finished })
}

// The counts that refining ends with, for every input: the rules' answer, and the working numbers all zero, however many are lent.
pub fn finished_counts(mesh: MeshTables, rounds: u32, words: &mut [u32]) -> Result<Counts, Refusal>
    ensures answer { counts_answer_of result ≡ finished_answer (mesh_in mesh.entry) rounds }
    ensures words { words.new ≡ cleared words.old }
{
    let found = plan(mesh, rounds, words);
    words.fill(0);
    let planned = found?;
    Ok(counting::counts_in(planned.finished))
}
