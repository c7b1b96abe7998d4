// The means: one division a vertex and axis.
ghost use Rattle.std.specs.Prelude.{◌≡◌, ℕ, ◌+◌, ◌*◌, ◌/◌, ◌≤◌, ◌<◌, ◌^◌, length, get_or, pos, ◌+ℤ◌};
ghost use Rattle.averaging.specs.Tally.{tally_at};
ghost use Rattle.averaging.specs.Pass.{Complete, MeanOf};

use crate::coordinates::unbias;
use crate::tallies::Tallies;

// The divisor of the mean of a vertex: 8 times 2 to the power rank, for each cell that counts.
fn divisor_of(rank: u32, valence: u32) -> u64
    requires { (rank < 4) × (valence ≤ 2 ^ 22) }
    ensures { result ≡ 8 * 2 ^ rank * valence }
{
    (8 << rank) * u64::from(valence)
}

// Most divisors are powers of two, since a regular vertex has a valence of 2 to the power of its rank, and a shift is
// quicker than a division.
fn quotient(sum: u64, divisor: u64) -> u64
    requires { 0 < divisor }
    ensures { result ≡ sum / divisor }
{
    let zeros = divisor.trailing_zeros();
    if divisor == 1 << zeros {
        return sum >> zeros;
    }
    sum / divisor
}

// The mean from a biased sum, rounded toward minus infinity.
fn mean_of(sum: u64, divisor: u64) -> i32
    requires { (0 < divisor) × (sum < divisor * 2 ^ 30) }
    ensures { pos (sum / divisor) ≡ result +ℤ pos (2 ^ 29) }
{
    unbias(quotient(sum, divisor))
}

// The means of all vertices. They are stored by index, since nothing is known of a slice after its chunks were lent for writing.
pub fn finish(tallies: &Tallies, out: &mut [i32])
    requires fits { (length tallies.now.totals.now ≡ length tallies.now.ranks.now) × (3 * length tallies.now.ranks.now ≤ length out.old) }
    requires complete { (a f : ℕ) → a < 3 → f < length tallies.now.ranks.now → Complete (tally_at tallies.now a f) }
    ensures means { (a f : ℕ) → a < 3 → f < length tallies.now.ranks.now → MeanOf (tally_at tallies.now a f) (get_or out.new (3 * f + a) (pos 0)) }
    ensures others_kept { (a f : ℕ) → a < 3 → length tallies.now.ranks.now ≤ f → get_or out.new (3 * f + a) (pos 0) ≡ get_or out.old (3 * f + a) (pos 0) }
{
    for (f, [rank, valence]) in tallies.ranks.iter().enumerate() {
        let divisor = divisor_of(*rank, *valence);
        let [x, y, z] = tallies.totals[f];
        out[3 * f] = mean_of(x, divisor);
        out[3 * f + 1] = mean_of(y, divisor);
        out[3 * f + 2] = mean_of(z, divisor);
    }
}
