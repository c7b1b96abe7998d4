// A flat table by its entries.
ghost use Rattle.std.specs.Prelude.{◌≡◌, ◌<◌};
ghost use Rattle.rules.specs.Lists.{cut};

// The entries of a flat table, N elements each.
pub fn entries<T, const N: usize>(table: &[T]) -> &[[T; N]]
    requires { 0 < N }
    ensures { result.now ≡ cut N table.now }
{
    table.as_chunks::<N>().0
}
