// Check 11: what is lent for refining, against what the finished mesh takes.
ghost use Rattle.std.specs.Prelude.{◌≡◌};
ghost use Rattle.rules.specs.Counts.{counts_in};
ghost use Rattle.rules.specs.EntryPoints.{lent_by, short_for_refining};
ghost use Rattle.tables.specs.Lent.{mesh_at};
ghost use Rattle.refine.specs.Lengths.{lengths};

use counting::fewer;
use rounds::WorkingNumbers;
use rules::Sizes;
use tables::LentTables;

// What is lent: the places of the output and of the working tables, the working 32-bit and the working 64-bit numbers.
#[derive(Clone, Copy)]
pub struct Lent {
    pub output: Sizes,
    pub working: Sizes,
    pub words: u64,
    pub longs: u64,
}

impl Lent {
    pub fn by(output: &LentTables, working: &LentTables, numbers: &WorkingNumbers) -> Self
        ensures { lengths result ≡ lent_by (mesh_at output.now) (mesh_at working.now) numbers.now.words.now numbers.now.longs.now }
    {
        Self {
            output: output.as_mesh().places(),
            working: working.as_mesh().places(),
            words: numbers.words.len() as u64,
            longs: numbers.longs.len() as u64,
        }
    }

    // Check 11.
    pub fn is_short(self, finished: Sizes) -> bool
        ensures { result ≡ short_for_refining (lengths self) (counts_in finished) }
    {
        fewer(self.output, finished)
            | (fewer(self.working, finished)
                | ((self.words / 8 < finished.vertices) | (self.longs / 3 < finished.vertices)))
    }
}
