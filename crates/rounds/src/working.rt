// The numbers that are lent for working: they travel together from the entry points down to the round. The working tables go beside them: a
// struct of both would have seven lifetimes, and what it would spare is one clause of two in five contracts. So do the output tables, which are no
// memory for working.
ghost use Rattle.std.specs.Prelude.{◌≡◌};
ghost use Rattle.rules.specs.EntryPoints.{cleared};
ghost use Rattle.rounds.specs.Working.{SameNumbers};

// Numbers of 32 and of 64 bits, each with a lifetime of its own, as in `LentTables`. A round takes 8 words and 3 longs a vertex of the finer mesh.
#[derive(Drop)]
pub struct WorkingNumbers<'w, 'l> {
    pub words: &'w mut [u32],
    pub longs: &'l mut [u64],
}

impl WorkingNumbers<'_, '_> {
    // Sets every number to 0.
    pub fn clear(&mut self)
        ensures same_numbers { SameNumbers self.old self.new }
        ensures words { self.new.words.now ≡ cleared self.old.words.now }
        ensures longs { self.new.longs.now ≡ cleared self.old.longs.now }
    {
        self.words.fill(0);
        self.longs.fill(0);
    }
}
