// Check 7 and the counts of distinct corner sets with whatever memory is lent. The edges, faces or cells are divided into classes by the
// squares of their corners: those with one corner set are in one class. Each class is looked at by itself, in a table made anew, and there are
// as many classes as it takes for the table of one to fit the memory.
ghost use Rattle.std.specs.Prelude.{◌≡◌, [], ◌^◌, ◌≤◌, ◌<◌, length, get_or};
ghost use Rattle.rules.specs.Lists.{keep};
ghost use Rattle.checks.specs.TaggedKeys.{SameTable};
ghost use Rattle.checks.specs.Classes.{walked, Size, tag_for, squared, class_of, in_class, CornersMet, Found};

use crate::parts::Part;
use crate::tagged::{Stopped, TaggedKeys};
use crate::{cells, faces};
use tables::MeshTables;

// What is walked: the edges of a mesh; its faces, told apart by how they go round; the cells of a flat table. It is an enum and no trait: no
// one else adds a kind, and a trait would need three ghost members and a law in place of three definitions by cases.
#[derive(Clone, Copy)]
pub enum Walk<'a> {
    Edges(MeshTables<'a>),
    Faces(MeshTables<'a>),
    Cells(&'a [u32]),
}

fn square(x: u32) -> usize
    ensures { (result ≡ squared x) × (result < 2 ^ 32) }
{
    let n = x as usize;
    n * n % 4294967296
}

// The class of some corners among so many classes; a single one holds all.
fn class_of(corners: &[u32], classes: usize) -> usize
    requires { (length corners.now ≤ 8) × (classes ≤ 1024) }
    ensures { result ≡ class_of classes corners.now }
{
    if classes == 1 {
        return 0;
    }
    let sum = corners.iter().map(|corner| square(*corner)).sum::<usize>();
    sum % 4294967296 * 1640531527 % 4294967296 * classes / 4294967296
}

// One of so many classes.
#[derive(Clone, Copy)]
struct Class {
    number: usize,
    count: usize,
    ghost few: { count ≤ 1024 },
}

impl Class {
    // Whether some corners are in it.
    fn holds(self, corners: &[u32]) -> bool
        requires { length corners.now ≤ 8 }
        ensures { result ≡ in_class self.count self.number corners.now }
    {
        class_of(corners, self.count) == self.number
    }
}

// What is walked, with C corners each, and how many there are, each counted as often as it is met.
#[derive(Clone, Copy)]
struct Walked<'a, const C: usize> {
    of: Walk<'a>,
    count: usize,
    ghost size: { Size of C },
    ghost count_is: { count ≡ length (walked of C) },
    ghost few: { count < 2 ^ 64 },
}

impl<'a, const C: usize> Walked<'a, C> {
    #[tactic(auto, using(lists::proofs::Tables::length_cut))]
    fn new(of: Walk<'a>) -> Walked<'a, C>
        requires { Size of C }
        ensures { result.of ≡ of.entry }
    {
        let count = match of {
            Walk::Edges(mesh) => Part::Edge.count_all(mesh),
            Walk::Faces(mesh) => Part::Face.count_all(mesh),
            Walk::Cells(table) => table.len() / C,
        };
        Walked { of, count }
    }

    // The corners of number i. Each kind has a call of its own: so the compiler knows how many parts a cell has.
    fn corners_at(self, i: usize) -> [u32; C]
        requires { i < self.count }
        ensures { result ≡ get_or (walked self.entry.of C) i [] }
    {
        match self.of {
            Walk::Edges(mesh) => Part::Edge.read(mesh, i),
            Walk::Faces(mesh) => Part::Face.read(mesh, i),
            Walk::Cells(table) => cells::read(table, i),
        }
    }

    // What tells two apart that have one corner set.
    fn tag_of(self, corners: [u32; C]) -> u32
        ensures { result ≡ tag_for self.entry.of corners.entry }
    {
        match self.of {
            Walk::Faces(_) => faces::across([corners[0], corners[1], corners[2], corners[3]]),
            Walk::Edges(_) | Walk::Cells(_) => 0,
        }
    }

    // Meets number i in a table if it is in the class.
    fn meet(self, i: usize, class: Class, table: &mut TaggedKeys<C>) -> Result<(), Stopped>
        requires { i < self.count }
        ensures same_table { SameTable table.old table.new }
        ensures met { let p = get_or (walked self.entry.of C) i [] in
            CornersMet (in_class class.count class.number) table.old table.new p (tag_for self.entry.of p) result }
    {
        let corners = self.corners_at(i);
        if !class.holds(&corners) {
            return Ok(());
        }
        table.meet_corners(corners, self.tag_of(corners))
    }

    // Goes over one class, of so many that are walked in all; the answer is how many corner sets it has.
    #[tactic(auto, using(crate::proofs::Sweeps::sweep_start, crate::proofs::Sweeps::sweep_turn, crate::proofs::Sweeps::sweep_end, crate::proofs::Sweeps::sweep_stops))]
    fn sweep(self, w: &mut [u32], class: Class) -> Result<usize, Stopped>
        requires { 0 < length w.old }
        ensures { let ps = keep (in_class class.count class.number) (walked self.entry.of C) in Found self.entry.of ps result }
    {
        let mut table = TaggedKeys::<C>::new(w, self.count);
        // No chain: its closure would change the table, and nothing would be known of it behind the chain.
        for i in 0..self.count {
            self.meet(i, class, &mut table)?;
        }
        Ok(table.known)
    }

    // Goes over so many classes, one after the other.
    #[tactic(auto, using(crate::proofs::Sweeps::found_all))]
    fn sweep_all(self, w: &mut [u32], classes: usize) -> Result<usize, Stopped>
        requires w_nonzero { 0 < length w.old }
        requires classes_in_range { (0 < classes) × (classes ≤ 1024) }
        ensures { Found self.entry.of (walked self.entry.of C) result }
    {
        let mut n = 0;
        // No chain, as above: its closure would change the lent memory.
        for number in 0..classes {
            let class = Class {
                number,
                count: classes,
            };
            n += self.sweep(w, class)?;
        }
        Ok(n)
    }
}

// Goes over all of them, of C corners each, in `fewest` classes or more, up to 1024, until each class fits the memory. A class that does not
// fit is given up before its end: that costs less than one class too many.
fn find_of<const C: usize>(w: &mut [u32], of: Walk, fewest: usize) -> Result<usize, Stopped>
    requires size { Size of C }
    requires fewest_nonzero { 0 < fewest }
    ensures { Found of.entry (walked of.entry C) result }
{
    if w.is_empty() {
        return Err(Stopped::Full);
    }
    let all = Walked::<C>::new(of);
    let mut classes = fewest;
    // The steps grow, so this is no range; nor a chain, since each turn changes the lent memory.
    while classes <= 1024 {
        match all.sweep_all(w, classes) {
            Err(Stopped::Full) => classes += 1 + classes / 8,
            found => return found,
        }
    }
    Err(Stopped::Full)
}

// The same where the count of corners, k, is a number: each count has a search of its own, since the compiler leaves no loop over a key where
// it knows the count.
#[inline(always)]
pub fn find(w: &mut [u32], of: Walk, k: usize, fewest: usize) -> Result<usize, Stopped>
    requires size { Size of k }
    requires fewest_nonzero { 0 < fewest }
    ensures { Found of.entry (walked of.entry k) result }
{
    match k {
        1 => find_of::<1>(w, of, fewest),
        2 => find_of::<2>(w, of, fewest),
        3 => find_of::<3>(w, of, fewest),
        4 => find_of::<4>(w, of, fewest),
        5 => find_of::<5>(w, of, fewest),
        6 => find_of::<6>(w, of, fewest),
        7 => find_of::<7>(w, of, fewest),
        _ => find_of::<8>(w, of, fewest),
    }
}
