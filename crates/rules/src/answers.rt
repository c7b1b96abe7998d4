// Refusals as numbers, and the results of calls as answers for C: the refusal's number, 0 for none, and beside it the call's other numbers,
// zeros where it is refused. And counts among sizes.
ghost use Rattle.std.specs.Prelude.{◌≡◌};
ghost use Rattle.rules.specs.Answers.{number_of, counts_answer_of, count_answer_of, millimetres_answer_of};
ghost use Rattle.rules.specs.Counts.{counts_in};

use crate::{CountAnswer, Counts, CountsAnswer, Millimetres, MillimetresAnswer, Refusal, Sizes};

impl From<Refusal> for u32 {
    ghost from_gives = { λ refusal number. number ≡ number_of refusal };

    fn from(refusal: Refusal) -> u32 {
        match refusal {
            Refusal::PartialEntry => 1,
            Refusal::CountOutOfRange => 2,
            Refusal::CoordinateOutOfRange => 3,
            Refusal::CornerOutOfRange => 4,
            Refusal::RepeatedCorner => 5,
            Refusal::DuplicateCell => 6,
            Refusal::MismatchedFace => 7,
            Refusal::IsolatedVertex => 8,
            Refusal::TooManyRounds => 9,
            Refusal::ResultTooLarge => 10,
            Refusal::ShortBuffer => 11,
            Refusal::WrongFileLength => 13,
            Refusal::UnknownForm => 14,
            Refusal::WrongIndexWidth => 15,
            Refusal::NonzeroPadding => 16,
        }
    }
}

impl From<Result<Counts, Refusal>> for CountsAnswer {
    ghost from_gives = { λ found answer. answer ≡ counts_answer_of found };

    fn from(found: Result<Counts, Refusal>) -> CountsAnswer {
        match found {
            Ok(counts) => CountsAnswer { refusal: 0, counts },
            Err(refusal) => CountsAnswer {
                refusal: u32::from(refusal),
                counts: Counts::default(),
            },
        }
    }
}

impl From<Result<u64, Refusal>> for CountAnswer {
    ghost from_gives = { λ found answer. answer ≡ count_answer_of found };

    fn from(found: Result<u64, Refusal>) -> CountAnswer {
        match found {
            Ok(count) => CountAnswer { refusal: 0, count },
            Err(refusal) => CountAnswer {
                refusal: u32::from(refusal),
                count: 0,
            },
        }
    }
}

impl From<Result<Millimetres, Refusal>> for MillimetresAnswer {
    ghost from_gives = { λ found answer. answer ≡ millimetres_answer_of found };

    fn from(found: Result<Millimetres, Refusal>) -> MillimetresAnswer {
        match found {
            Ok(position) => MillimetresAnswer {
                refusal: 0,
                position,
            },
            Err(refusal) => MillimetresAnswer {
                refusal: u32::from(refusal),
                position: Millimetres::default(),
            },
        }
    }
}

// The counts beside no edges and no faces.
impl From<Counts> for Sizes {
    ghost from_gives = { λ counts sizes. (counts_in sizes ≡ counts) × (sizes.edges ≡ 0) × (sizes.faces ≡ 0) };

    #[tactic(auto, unfolding(crate::specs::Counts::counts_in))]
    fn from(counts: Counts) -> Sizes {
        Sizes {
            vertices: u64::from(counts.vertices),
            edges: 0,
            faces: 0,
            hexes: u64::from(counts.hexes),
            quads: u64::from(counts.quads),
            segments: u64::from(counts.segments),
            points: u64::from(counts.points),
        }
    }
}
