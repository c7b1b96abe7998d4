// docs/SPECIFICATION.md as definitions (specs/), the answers that the entry points give, and the constant tables.
#![tactic(auto)]

// The counts of a mesh's five tables.
#[repr(C)]
#[derive(Clone, Copy, Default)]
pub struct Counts {
    pub vertices: u32,
    pub hexes: u32,
    pub quads: u32,
    pub segments: u32,
    pub points: u32,
}

// The counts with the distinct edges and faces: what the next round's counts follow from.
#[derive(Clone, Copy)]
pub struct Sizes {
    pub vertices: u64,
    pub edges: u64,
    pub faces: u64,
    pub hexes: u64,
    pub quads: u64,
    pub segments: u64,
    pub points: u64,
}

// Why a call is refused, each reason under the name of its rule (section 7); number 12 is retired.
#[derive(Clone, Copy, Debug, PartialEq, Eq)]
pub enum Refusal {
    PartialEntry,
    CountOutOfRange,
    CoordinateOutOfRange,
    CornerOutOfRange,
    RepeatedCorner,
    DuplicateCell,
    MismatchedFace,
    IsolatedVertex,
    TooManyRounds,
    ResultTooLarge,
    ShortBuffer,
    WrongFileLength,
    UnknownForm,
    WrongIndexWidth,
    NonzeroPadding,
}

// What refining and reading answer: the refusal's number, 0 for none, and the counts. A struct, as are the next: C has no `Result`.
#[repr(C)]
#[derive(Clone, Copy)]
pub struct CountsAnswer {
    pub refusal: u32,
    pub counts: Counts,
}

// What writing and the irregular count answer: the refusal's number, 0 for none, and a count.
#[repr(C)]
#[derive(Clone, Copy)]
pub struct CountAnswer {
    pub refusal: u32,
    pub count: u64,
}

// A position in millimetres.
#[repr(C)]
#[derive(Clone, Copy, Default)]
pub struct Millimetres {
    pub x: f64,
    pub y: f64,
    pub z: f64,
}

// What the millimetre report answers: the refusal's number, 0 for none, and the position.
#[repr(C)]
#[derive(Clone, Copy)]
pub struct MillimetresAnswer {
    pub refusal: u32,
    pub position: Millimetres,
}

// Refusals as numbers, and results as answers for C.
mod answers;
// The constant tables.
pub mod tables;
