// The tallies of the fine vertices.
ghost use Rattle.std.specs.Prelude.{◌≡◌, [], ℕ, ◌+◌, ◌*◌, ◌≤◌, ◌<◌, ◌^◌, length, get_or};
ghost use Rattle.rules.specs.Lists.{cut};
ghost use Rattle.averaging.specs.Tally.{tally_at, nothing, corner_step, Spare, Tallied};
ghost use Rattle.averaging.specs.Pass.{gathered_at, child_step, cell_step, table_step, cell_count, Known, Near, Families};

use crate::coordinates::Gathered;
use crate::entries::entries;

// The rank and the valence of each vertex, and its sums on the three axes: two slices, as C lends words and longs. That they have one length is
// a part of `Spare`, which all that count ask for; `reset` and `finish`, which count nothing, ask for it by itself. A field would spare their two
// clauses, and stand beside `Spare` all the same.
#[derive(Drop)]
pub struct Tallies<'a> {
    pub ranks: &'a mut [[u32; 2]],
    pub totals: &'a mut [[u64; 3]],
}

impl Tallies<'_> {
    // Nothing is counted yet.
    pub fn reset(&mut self)
        requires { length self.old.totals.now ≡ length self.old.ranks.now }
        ensures cleared { (a f : ℕ) → a < 3 → f < length self.old.ranks.now → tally_at self.new a f ≡ nothing }
        ensures kept { (length self.new.ranks.now ≡ length self.old.ranks.now) × (length self.new.totals.now ≡ length self.old.totals.now) }
    {
        self.ranks.fill([3, 0]);
        self.totals.fill([0; 3]);
    }

    // A cell of dimension d counts for one of its corners. The dimension is a number, since it is compared with ranks.
    #[tactic(auto, using(crate::proofs::Stores::valence_fits))]
    fn count_at(&mut self, vertex: usize, d: u32, sums: [u64; 3])
        requires room { (vertex < length self.old.ranks.now) × Spare 1 self.old }
        requires sums_below { (a : ℕ) → a < 3 → get_or sums a 0 < 2 ^ 41 }
        ensures { Tallied 1 (λ (a : ℕ). corner_step d (get_or sums a 0) vertex) self.old self.new }
    {
        let [rank, valence] = self.ranks[vertex];
        let counts = d <= rank;
        if counts {
            self.ranks[vertex] = [d, valence + 1];
            let [x, y, z] = self.totals[vertex];
            self.totals[vertex] = [x + sums[0], y + sums[1], z + sums[2]];
        }
    }

    // A child counts for its corners.
    fn count_child<const N: usize>(&mut self, child: &[u32; N], d: u32, sums: [u64; 3])
        requires room { Known (length self.old.ranks.now) child.now × Spare N self.old }
        requires sums_below { (a : ℕ) → a < 3 → get_or sums a 0 < 2 ^ 41 }
        ensures { Tallied N (λ (a : ℕ). child_step N d (get_or sums a 0) child.now) self.old self.new }
    {
        for corner in child {
            self.count_at(*corner as usize, d, sums);
        }
    }

    // The children of a cell of dimension d count, each for its corners.
    fn count_cell<const N: usize>(
        &mut self,
        children: &[[u32; N]; N],
        weights: &[[u8; N]; N],
        d: u32,
        gathered: &Gathered<N>,
    )
        requires { ((i : ℕ) → i < N → Known (length self.old.ranks.now) (get_or children.now i [])) × Spare (N * N) self.old }
        ensures { Tallied (N * N) (λ (a : ℕ). cell_step N d weights.now (gathered_at gathered.now.corners a) children.now) self.old self.new }
    {
        for (row, child) in weights.iter().zip(children) {
            let sums = gathered.child_sums(row);
            self.count_child(child, d, sums);
        }
    }

    // The pass over one table of cells of dimension d: their children count, which stand in `fine` in the order of the cells.
    // The dimension stands beside the weights, since proofs are not told how long an array in a struct behind a reference is.
    pub fn count_table<const N: usize>(
        &mut self,
        corners: &[u32],
        weights: &[[u8; N]; N],
        d: u32,
        vertices: &[[i32; 3]],
        fine: &[u32],
    )
        requires few { (0 < N) × (N ≤ 8) }
        requires cells { Families N (length vertices.now) (length self.old.ranks.now) (cut N corners.now) (cut N (cut N fine.now)) }
        requires near { Near vertices.now }
        requires room { Spare (N * N * cell_count N corners.now) self.old }
        ensures { Tallied (N * N * cell_count N corners.now) (table_step N d weights.now vertices.now (cut N corners.now) (cut N (cut N fine.now))) self.old self.new }
    {
        let cells: &[[u32; N]] = entries(corners);
        let families: &[[[u32; N]; N]] = entries(entries(fine));
        for (cell, family) in cells.iter().zip(families) {
            let gathered = Gathered::of(cell, vertices);
            self.count_cell(family, weights, d, &gathered);
        }
    }
}
