// The answer for C that a refusal's number, or the sizes after the rounds, lead to.
ghost use Rattle.std.specs.Prelude.{◌≡◌};
ghost use Rattle.rules.specs.Counts.{counts_in};
ghost use Rattle.rules.specs.EntryPoints.{counts_answer};
ghost use Rattle.soundness.specs.Growth.{InRange};

use rules::{Counts, CountsAnswer, Sizes};

// The refusal's number and zeros, or the counts among the finished sizes. A number and no `Refusal`, since the rules answer every number, and
// some have no name.
#[tactic(auto, using(crate::proofs::Plans::range_narrow))]
pub fn answer(refusal: u32, finished: Sizes) -> CountsAnswer
    requires { refusal ≡ 0 → InRange (counts_in finished) }
    ensures { result ≡ counts_answer refusal (counts_in finished) }
{
    if refusal != 0 {
        let counts = Counts::default();
        return CountsAnswer { refusal, counts };
    }
    let counts = counting::counts_in(finished);
    CountsAnswer { refusal, counts }
}
