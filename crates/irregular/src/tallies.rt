// The irregular vertices, in windows: as many at a time as there are pairs of lent numbers.
ghost use Rattle.std.specs.Prelude.{◌≡◌, ℕ, ◌+◌, ◌/◌, ◌^◌, ◌≤◌, ◌<◌, length, get_or, count_by, All};
ghost use Rattle.std.specs.List.{zip};
ghost use Rattle.rules.specs.Lists.{keep, up_from};
ghost use Rattle.tables.specs.Lent.{mesh_in};
ghost use Rattle.irregular.specs.Times.{irregular_in, corner_count};
ghost use Rattle.irregular.specs.Tallied.{Tallied, Counted, Ranked, unusual};

use checks::marks::{mark, place_in_window};
use tables::MeshTables;

// A mesh whose corners a number can count.
#[derive(Clone, Copy)]
pub struct FewCorners<'a> {
    pub tables: MeshTables<'a>,
    ghost few: { corner_count (mesh_in tables) < 2 ^ 32 },
}

// The valence of a regular vertex.
fn regular(rank: u32) -> u32
    requires { rank < 4 }
    ensures { result ≡ 8 / 2 ^ rank }
{
    8 >> rank
}

// A window of vertices, and two lent numbers for each. The numbers at place v tell of vertex first + v: that of `ranks` how far its rank is
// below 3, so that it is 0 before any mark, and that of `valences` its valence.
#[derive(Drop)]
struct Window<'a> {
    first: usize,
    ranks: &'a mut [u32],
    valences: &'a mut [u32],
    ghost same: { length valences.now ≡ length ranks.now },
}

impl Window<'_> {
    // Marks each vertex by how far its rank is below 3; all numbers are 0 before.
    fn mark_ranks(&mut self, mesh: MeshTables)
        requires { (v : ℕ) → v < length self.old.ranks.now → get_or self.old.ranks.now v 0 ≡ 0 }
        ensures kept { (self.new.first ≡ self.old.first) × (self.new.valences.now ≡ self.old.valences.now) }
        ensures ranked { Ranked self.old.first (mesh_in mesh.entry) self.new.ranks.now }
    {
        mark(self.ranks, self.first, 1, mesh.quads);
        mark(self.ranks, self.first, 2, mesh.segments);
        mark(self.ranks, self.first, 3, mesh.points);
    }

    // Counts each corner of a table whose vertex is in the window and has the rank. Corners name their vertices, so both numbers of one are
    // reached by its place.
    fn tally(&mut self, rank: u32, table: &[u32])
        requires counts_fit { (v : ℕ) → v < length self.old.ranks.now → get_or self.old.valences.now v 0 + length table.now < 2 ^ 32 }
        ensures kept { (self.new.first ≡ self.old.first) × (self.new.ranks.now ≡ self.old.ranks.now) }
        ensures tallied { Tallied self.old.first rank self.old.ranks.now table.now self.old.valences.now self.new.valences.now }
    {
        let first = self.first;
        // By `&mut`, though they are only read: of a slice lent by `&` it is not known at the end of the loop that the struct holds it still.
        let ranks = &mut *self.ranks;
        let valences = &mut *self.valences;
        for corner in table {
            if let Some(place) = place_in_window(*corner as usize, first, ranks.len()) {
                if rank == ranks[place] {
                    valences[place] += 1;
                }
            }
        }
    }

    // Counts each corner of all tables whose vertex is in the window and has the table's rank.
    fn tally_all(&mut self, mesh: FewCorners)
        requires { (v : ℕ) → v < length self.old.ranks.now → get_or self.old.valences.now v 0 ≡ 0 }
        ensures kept { self.new.ranks.now ≡ self.old.ranks.now }
        ensures counted { Counted self.old.first (mesh_in mesh.entry.tables) self.old.ranks.now self.new.valences.now }
    {
        self.tally(0, mesh.tables.hexes);
        self.tally(1, mesh.tables.quads);
        self.tally(2, mesh.tables.segments);
        self.tally(3, mesh.tables.points);
    }

    // How many vertices have another valence than a regular one.
    fn count_unusual(&self) -> usize
        requires { All (λ r. r < 4) self.now.ranks.now }
        ensures { result ≡ count_by unusual (zip self.now.ranks.now self.now.valences.now) }
    {
        self.ranks
            .iter()
            .zip(&*self.valences)
            .filter(|&(rank, valence)| *valence != regular(*rank))
            .count()
    }

    // How many vertices are irregular.
    fn count_irregular(&mut self, mesh: FewCorners) -> usize
        ensures { result ≡ length (keep (irregular_in (mesh_in mesh.entry.tables)) (up_from self.old.first (length self.old.ranks.now))) }
    {
        self.ranks.fill(0);
        self.valences.fill(0);
        self.mark_ranks(mesh.tables);
        self.tally_all(mesh);
        self.count_unusual()
    }
}

// How many vertices are irregular. The windows are a range of first vertices: the same lent numbers serve each, so there is no slice to cut.
pub fn count(w: &mut [u32], mesh: FewCorners) -> u64
    requires { 2 ≤ length w.old }
    ensures { result ≡ length (keep (irregular_in (mesh_in mesh.entry.tables)) (up_from 0 (length (mesh_in mesh.entry.tables).vertices / 3))) }
{
    let n = mesh.tables.vertices.len() / 3;
    let half = w.len() / 2;
    let (ranks, valences) = w.split_at_mut(half);
    let mut count = 0;
    for first in (0..n).step_by(half) {
        let size = half.min(n - first);
        let mut window = Window {
            first,
            ranks: &mut ranks[..size],
            valences: &mut valences[..size],
        };
        count += window.count_irregular(mesh) as u64;
    }
    count
}
