// Coordinates counted from the least one, -2^29: sums of them are not negative, so that division rounds them toward minus infinity.
ghost use Rattle.std.specs.Prelude.{◌≡◌, ℕ, ◌+◌, ◌*◌, ◌≤◌, ◌<◌, ◌^◌, length, get_or, pos, ◌+ℤ◌};
ghost use Rattle.integers.specs.Range.{InRange};
ghost use Rattle.averaging.specs.Pass.{biased, gathered_at, corner_coordinate, weighed, Known, Near};

// A coordinate, counted from the least one: a shift, which no `From` says.
fn bias(x: i32) -> u64
    requires { InRange x }
    ensures { (result ≡ biased x) × (result < 2 ^ 30) }
{
    (i64::from(x) + 536_870_912) as u64
}

// And back.
pub fn unbias(u: u64) -> i32
    requires { u < 2 ^ 30 }
    ensures { pos u ≡ result +ℤ pos (2 ^ 29) }
{
    (u as i64 - 536_870_912) as i32
}

// The biased coordinates of a vertex. One by one, since with `map` refining segments takes 0.55 % more instructions.
fn biased_vertex(vertex: &[i32; 3]) -> [u64; 3]
    requires { (a : ℕ) → a < 3 → InRange (get_or vertex.now a (pos 0)) }
    ensures { (a : ℕ) → a < 3 → (get_or result a 0 ≡ biased (get_or vertex.now a (pos 0))) × (get_or result a 0 < 2 ^ 30) }
{
    [bias(vertex[0]), bias(vertex[1]), bias(vertex[2])]
}

// The biased coordinates of the corners of a cell. Their count is a ghost field too: of an array in a struct behind a reference, proofs don't
// know how long it is.
#[derive(Clone, Copy)]
pub struct Gathered<const N: usize> {
    pub corners: [[u64; 3]; N],
    ghost whole: { length corners ≡ N },
    ghost few: { N ≤ 8 },
    ghost below: { (u a : ℕ) → u < N → a < 3 → gathered_at corners a u < 2 ^ 30 },
}

impl<const N: usize> Gathered<N> {
    // By index: with a `map` over the cell refining takes 0.4 % more instructions (hexes, quads) to 0.9 % more (segments, over the bar).
    pub fn of(cell: &[u32; N], vertices: &[[i32; 3]]) -> Gathered<N>
        requires few { N ≤ 8 }
        requires known { Known (length vertices.now) cell.now }
        requires near { Near vertices.now }
        ensures { (u a : ℕ) → u < N → a < 3 → gathered_at result.corners a u ≡ corner_coordinate vertices.now cell.now a u }
    {
        let mut corners = [[0; 3]; N];
        for (u, corner) in cell.iter().enumerate() {
            corners[u] = biased_vertex(&vertices[*corner as usize]);
        }
        Gathered { corners }
    }

    // The weighed sum of a cell's corners on one axis.
    fn weigh(&self, row: &[u8; N], axis: usize) -> u64
        requires { axis < 3 }
        ensures { (result ≡ weighed N row.now (gathered_at self.now.corners axis)) × (result < 2 ^ 41) }
    {
        row.iter()
            .zip(&self.corners)
            .map(
                |(weight, corner)| -> u64
                    requires { (axis < 3) × (get_or corner.now axis 0 < 2 ^ 30) }
                    ensures { (result ≡ weight.entry.now * get_or corner.entry.now axis 0) × (result ≤ 255 * 2 ^ 30) }
                { u64::from(*weight) * corner[axis] },
            )
            .sum()
    }

    // The split positions of all corners of a child of a cell, summed, in eighths, on each axis.
    pub fn child_sums(&self, row: &[u8; N]) -> [u64; 3]
        ensures { (a : ℕ) → a < 3 → (get_or result a 0 ≡ weighed N row.now (gathered_at self.now.corners a)) × (get_or result a 0 < 2 ^ 41) }
    {
        [self.weigh(row, 0), self.weigh(row, 1), self.weigh(row, 2)]
    }
}
