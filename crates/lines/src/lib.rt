// What the listing program prints, as bytes in a buffer.
// Rests on `fixed` for the mesh that is read and refined, on `counting` for the counts of the first line, on the kit's `itoa` for digits.
// Promises of `lines`, for every input: the rules' bytes stand at the front of the output, and the answer is how many they are.
#![tactic(auto)]

ghost use Rattle.std.specs.Prelude.{◌≡◌, ◌+◌, ◌≤◌, length};
ghost use Rattle.rules.specs.Lists.{overwritten};
ghost use Rattle.rules.specs.Averaging.{refined};
ghost use Rattle.rules.specs.StoredForm.{stored_mesh};
ghost use Rattle.rules.specs.Viewer.{stored_refining_refusal};
ghost use Rattle.rules.specs.Listing.{listed, listing};
ghost use Rattle.lines.specs.Appended.{Printed};
ghost use Rattle.lines.specs.Fitting.{output_size};

use crate::rows::{FittingMesh, push_mesh_lines, push_refused_line};
use crate::text::Text;
use fixed::{Arrays, refine_stored};
use rules::Refusal;

// The kinds of cells and their letters.
pub mod kinds;
// The rank and the valence of a vertex, by its corners in the tables.
pub mod ranks;
// A line for each vertex and each cell.
pub mod rows;
// The buffer that the lines are put into.
pub mod text;

// How many bytes the input may have.
pub const LIMIT: usize = 16385;

// How many bytes the longest listing has.
pub const OUTPUT_SIZE: usize = 112348;

// The lines of a stored mesh after its rounds, or of the refusal.
fn push_stored_lines(bytes: &[u8], rounds: u32, out: &mut Text)
    requires { out.old.length + output_size ≤ length out.old.buffer.now }
    ensures { let s = bytes.now in
        Printed out.old out.new (listed (stored_refining_refusal s rounds) (refined rounds (stored_mesh s))) }
{
    let mut arrays = Arrays::new();
    let mut tables = arrays.lend();
    match refine_stored(bytes, rounds, &mut tables) {
        Ok(counts) => {
            let finished = FittingMesh {
                tables: tables.as_mesh().front(counts),
            };
            push_mesh_lines(finished, out);
        }
        Err(refusal) => push_refused_line(u32::from(refusal), out),
    }
}

// What the program prints of its input, of any length: the lines stand at the front of the output, and the answer says how long they are.
pub fn lines(input: &[u8], out: &mut [u8; OUTPUT_SIZE]) -> usize
    ensures count { result ≡ length (listing input.now) }
    ensures output { out.new ≡ overwritten out.old (listing input.now) }
{
    let mut text = Text {
        buffer: out,
        length: 0,
    };
    if LIMIT < input.len() {
        push_refused_line(u32::from(Refusal::ShortBuffer), &mut text);
    } else if input.is_empty() {
        push_refused_line(u32::from(Refusal::WrongFileLength), &mut text);
    } else {
        push_stored_lines(&input[1..], u32::from(input[0]), &mut text);
    }
    text.length
}
