// The kinds of cells, by how many corners a cell has and by the letter of its lines.
ghost use Rattle.std.specs.Prelude.{◌≡◌, ◌<◌};
ghost use Rattle.lines.specs.Kinds.{corner_count, letter_of};

// Its own beside `CellKind` of splitting: that one has only the kinds that are split and names their parts, this one has points and letters.
#[derive(Clone, Copy)]
pub enum Kind {
    Hex,
    Quad,
    Segment,
    Point,
}

impl Kind {
    pub fn corner_count(self) -> usize
        ensures value { result ≡ corner_count self }
        ensures some { 0 < result }
    {
        match self {
            Kind::Hex => 8,
            Kind::Quad => 4,
            Kind::Segment => 2,
            Kind::Point => 1,
        }
    }

    pub fn letter(self) -> u8
        ensures { result ≡ letter_of self }
    {
        match self {
            Kind::Hex => b'h',
            Kind::Quad => b'q',
            Kind::Segment => b's',
            Kind::Point => b'p',
        }
    }
}
