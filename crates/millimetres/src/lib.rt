// The millimetre report: a vertex's position as three 64-bit floats. Each is the unit count over 1024, exactly, or the report is refused.
// Rests on the definitions of `rules` and on check 3 of one coordinate; no `requires`.
#![tactic(auto)]

ghost use Rattle.std.specs.Prelude.{◌≡◌, false};
ghost use Rattle.rules.specs.Answers.{millimetres_answer_of};
ghost use Rattle.rules.specs.Refusals.{outside};
ghost use Rattle.rules.specs.EntryPoints.{in_millimetres, millimetres_answer};

use checks::table_checks::is_outside;
use rules::{Millimetres, Refusal};

// One division: it is exact, because a 30-bit count is divided by a power of two.
fn in_millimetres(z: i32) -> f64
    requires { outside z ≡ false }
    ensures { result ≡ in_millimetres z }
{
    z as f64 / 1024.0
}

// The position of a vertex with the coordinates x, y, z.
#[tactic(auto, unfolding(rules::specs::EntryPoints::millimetres_answer, rules::specs::EntryPoints::millimetres_refusal))]
pub fn millimetres(x: i32, y: i32, z: i32) -> Result<Millimetres, Refusal>
    ensures { millimetres_answer_of result ≡ millimetres_answer x y z }
{
    if is_outside(x) || is_outside(y) || is_outside(z) {
        return Err(Refusal::CoordinateOutOfRange);
    }
    Ok(Millimetres {
        x: in_millimetres(x),
        y: in_millimetres(y),
        z: in_millimetres(z),
    })
}
