// The viewer's calls: a stored mesh in, one number out, which is a refusal's number below zero where there is a refusal. Tables of the
// fixed sizes, 1,000 vertices and 256 cells of each kind, are local arrays.
ghost use Rattle.std.specs.Prelude.{◌≡◌, true, ℕ, suc, ◌^◌, ◌<◌, take, replicate, pos, IfOk};
ghost use Rattle.rules.specs.Accuracy.{Property3};
ghost use Rattle.rules.specs.Answers.{count_answer_of};
ghost use Rattle.rules.specs.EntryPoints.{range_kept};
ghost use Rattle.rules.specs.StoredForm.{stored_mesh};
ghost use Rattle.rules.specs.Viewer.{signed, viewer_answer, viewer_output, viewer_irregular_count};

use fixed::{Arrays, refine_stored};
use irregular::irregular_count;
use rules::Refusal;
use stored::{read, write};

// A count or a refusal as one number, as C reads it.
fn signed(found: Result<u64, Refusal>) -> i64
    requires { IfOk found (λ count. count < 2 ^ 63) }
    ensures { let answer = count_answer_of found in result ≡ signed answer.refusal answer.count }
{
    match found {
        Ok(count) => count as i64,
        Err(refusal) => -i64::from(u32::from(refusal)),
    }
}

// Refines a stored mesh and writes the finished one: the count of bytes.
fn refine_bytes(stored: &[u8], rounds: u32, res: &mut [u8]) -> Result<u64, Refusal>
    ensures answer { let answer = count_answer_of result in signed answer.refusal answer.count ≡ viewer_answer stored.now rounds res.old }
    ensures output { res.new ≡ viewer_output stored.now rounds res.old }
    ensures fits { IfOk result (λ count. count < 2 ^ 63) }
{
    let mut arrays = Arrays::new();
    let mut tables = arrays.lend();
    let counts = refine_stored(stored, rounds, &mut tables)?;
    write(tables.as_mesh().front(counts), res)
}

// Refines a stored mesh and writes the finished one at the front of the result buffer: the count of bytes, and the rest unchanged. Of what it
// wrote, the third property; and every coordinate of every round in range.
#[unsafe(no_mangle)]
pub extern "C" fn mlca_refine(stored: &[u8], rounds: u32, res: &mut [u8]) -> i64
    ensures answer { result ≡ viewer_answer stored.now rounds res.old }
    ensures output { res.new ≡ viewer_output stored.now rounds res.old }
    ensures accuracy { (n : ℕ) → result ≡ pos n → Property3 rounds (stored_mesh stored.now) (stored_mesh (take n res.new)).vertices }
    ensures range { (n : ℕ) → result ≡ pos n → range_kept rounds (stored_mesh stored.now) ≡ replicate (suc rounds) true }
{
    signed(refine_bytes(stored, rounds, res))
}

// How many vertices of a stored mesh are irregular, with as many working numbers as make the checks near-linear.
fn count_bytes(stored: &[u8]) -> Result<u64, Refusal>
    ensures answer { let answer = count_answer_of result in signed answer.refusal answer.count ≡ viewer_irregular_count stored.now }
    ensures fits { IfOk result (λ count. count < 2 ^ 63) }
{
    let mut arrays = Arrays::new();
    let mut tables = arrays.lend();
    let counts = read(stored, &mut tables)?;
    let mut words = [0u32; 12545];
    irregular_count(tables.as_mesh().front(counts), &mut words)
}

// The irregular count of a stored mesh.
#[unsafe(no_mangle)]
pub extern "C" fn mlca_irregular_count(stored: &[u8]) -> i64
    ensures { result ≡ viewer_irregular_count stored.now }
{
    signed(count_bytes(stored))
}
