// Checks 1 to 4, which look at the tables: each an equation with its test of the rules.
ghost use Rattle.std.specs.Prelude.{◌≡◌, false, leb};
ghost use Rattle.rules.specs.Lists.{any};
ghost use Rattle.rules.specs.Mesh.{topology};
ghost use Rattle.rules.specs.Answers.{refusal_of};
ghost use Rattle.rules.specs.Refusals.{partial_entry, count_out_of_range, outside, corner_out_of_range, table_checks};
ghost use Rattle.tables.specs.Lent.{mesh_in};

use rules::Refusal;
use tables::MeshTables;

// 1, partial entry (rule 7.1).
#[tactic(auto, unfolding(rules::specs::Refusals::partial_entry))]
pub fn has_partial_entry(mesh: MeshTables) -> bool
    ensures { result ≡ partial_entry (mesh_in mesh.entry) }
{
    mesh.vertices.len() % 3 != 0
        || mesh.hexes.len() % 8 != 0
        || mesh.quads.len() % 4 != 0
        || mesh.segments.len() % 2 != 0
}

// 2, count out of range (rule 7.2).
#[tactic(auto, unfolding(rules::specs::Refusals::count_out_of_range))]
pub fn has_count_out_of_range(mesh: MeshTables) -> bool
    ensures { result ≡ count_out_of_range (mesh_in mesh.entry) }
{
    counting::out_of_range(mesh.places())
}

// 3 of one coordinate (rule 7.3).
#[tactic(auto, unfolding(rules::specs::Refusals::outside))]
pub fn is_outside(z: i32) -> bool
    ensures { result ≡ outside z }
{
    z < -536870912 || 536870911 < z
}

// 3. It asks for the coordinates alone, and goes to the end whatever it finds: so the compiler can take many at a time.
pub fn has_coordinate_out_of_range(xs: &[i32]) -> bool
    ensures { result ≡ any outside xs.now }
{
    xs.iter().fold(false, |found, x| found | is_outside(*x))
}

// Some corner of a table is not below n. This loop goes to the end as well, and compares numbers of 32 bits: of those it takes most at a time.
pub fn reaches(n: usize, table: &[u32]) -> bool
    ensures { result ≡ any (leb n) table.now }
{
    let Ok(n) = u32::try_from(n) else {
        return false;
    };
    table
        .iter()
        .fold(false, |found, corner| found | (n <= *corner))
}

// 4, corner out of range (rule 7.4).
#[tactic(auto, using(crate::proofs::ByKind::corner_tables))]
pub fn has_corner_out_of_range(mesh: MeshTables) -> bool
    requires { partial_entry (mesh_in mesh) ≡ false }
    ensures { result ≡ corner_out_of_range
        (topology (mesh_in mesh.entry)) }
{
    let n = mesh.vertices.len() / 3;
    reaches(n, mesh.hexes)
        || reaches(n, mesh.quads)
        || reaches(n, mesh.segments)
        || reaches(n, mesh.points)
}

// 1 to 4 in order: the first that fails.
#[tactic(auto, unfolding(rules::specs::Refusals::table_checks, rules::specs::Refusals::coordinate_out_of_range))]
pub fn check_tables(mesh: MeshTables) -> Result<(), Refusal>
    ensures { refusal_of result ≡ table_checks (mesh_in mesh.entry) 0 }
{
    if has_partial_entry(mesh) {
        return Err(Refusal::PartialEntry);
    }
    if has_count_out_of_range(mesh) {
        return Err(Refusal::CountOutOfRange);
    }
    if has_coordinate_out_of_range(mesh.vertices) {
        return Err(Refusal::CoordinateOutOfRange);
    }
    if has_corner_out_of_range(mesh) {
        return Err(Refusal::CornerOutOfRange);
    }
    Ok(())
}
