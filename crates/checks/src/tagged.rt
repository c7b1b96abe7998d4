// A table of keys in lent memory with a tag for each key: 3 numbers more than a key has, and one more for all.
ghost use Rattle.std.specs.Prelude.{◌≡◌, ◌≤◌, ◌<◌, length};
ghost use Rattle.rules.specs.Lists.{key_of};
ghost use Rattle.checks.specs.Tagged.{Tagged, TagMet, known_then};

use numbering::{count, keys, table};

// Why keys are not all met: one was met before with another tag, or there is no room for one.
#[derive(Clone, Copy, Debug, PartialEq, Eq)]
pub enum Stopped {
    Differs,
    Full,
}

// Makes a table of no key with room for `most` keys of c numbers, or for as many as the memory holds; the answer is its room.
#[inline(always)]
#[tactic(auto, using(crate::proofs::TaggedLaws::tagged_start))]
pub fn prepare(w: &mut [u32], c: usize, most: usize) -> usize
    requires { (0 < length w.old) × (c ≤ 8) }
    ensures len { length w.new ≡ length w.old }
    ensures no_key { Tagged c w.new result 0 }
{
    let room = count::room_for(w.len(), c, 1, most);
    let size = table::size(room, c);
    table::prepare(&mut w[..size], room);
    room
}

// Meets a key with a tag in a table of n keys; the answer is how many keys there are then. Where it is `Err`, the table still has n.
#[inline(always)]
#[tactic(auto, using(crate::proofs::TaggedLaws::meets_known))]
pub fn meet(w: &mut [u32], room: usize, n: usize, key: &[u32], tag: u32) -> Result<usize, Stopped>
    requires { Tagged (length key.now) w.old room n }
    ensures len { length w.new ≡ length w.old }
    ensures holds { Tagged (length key.now) w.new room (known_then n result) }
    ensures met { TagMet (length key.now) w.old w.new room n key.now tag result }
{
    let size = table::size(room, key.len());
    let Some(met) = table::meet(&mut w[..size], room, n, key) else {
        return Err(Stopped::Full);
    };
    let at = size + met.number;
    if n < met.known {
        w[at] = tag;
    } else if w[at] != tag {
        return Err(Stopped::Differs);
    }
    Ok(met.known)
}

// Meets the key of some corners, which are sorted in place.
#[inline(always)]
pub fn meet_corners(
    w: &mut [u32],
    room: usize,
    n: usize,
    corners: &mut [u32],
    tag: u32,
) -> Result<usize, Stopped>
    requires { Tagged (length corners.old) w.old room n }
    ensures len { length w.new ≡ length w.old }
    ensures holds { Tagged (length corners.old) w.new room (known_then n result) }
    ensures met { TagMet (length corners.old) w.old w.new room n (key_of corners.old) tag result }
{
    keys::sort(corners);
    meet(w, room, n, corners, tag)
}

// The memory of a table of keys of C numbers, for how many keys it has room, and how many it has. The functions above take these one by one,
// for keys of any length; where the length is a constant, the compiler leaves no loop over a key, and the table is one value.
#[derive(Drop)]
pub struct TaggedKeys<'a, const C: usize> {
    pub words: &'a mut [u32],
    pub room: usize,
    pub known: usize,
    pub ghost holds: { Tagged C words.now room known },
}

impl<'a, const C: usize> TaggedKeys<'a, C> {
    ghost use Rattle.checks.specs.TaggedKeys.{SameTable, KeyMet};

    // A table of no key with room for `most` keys, or for as many as the memory holds.
    pub fn new(words: &'a mut [u32], most: usize) -> TaggedKeys<'a, C>
        requires { (0 < length words.old) × (C ≤ 8) }
        ensures same_words { result.words.ghost_name ≡ words.entry.ghost_name }
        ensures len { length result.words.now ≡ length words.old }
        ensures no_key { result.known ≡ 0 }
    {
        let room = prepare(words, C, most);
        TaggedKeys {
            words,
            room,
            known: 0,
        }
    }

    // Meets a key with a tag.
    pub fn meet(&mut self, key: [u32; C], tag: u32) -> Result<(), Stopped>
        ensures same_table { SameTable self.old self.new }
        ensures met { KeyMet self.old self.new key.entry tag result }
    {
        self.known = meet(self.words, self.room, self.known, &key, tag)?;
        Ok(())
    }

    // Meets the key of some corners.
    pub fn meet_corners(&mut self, corners: [u32; C], tag: u32) -> Result<(), Stopped>
        ensures same_table { SameTable self.old self.new }
        ensures met { KeyMet self.old self.new (key_of corners.entry) tag result }
    {
        let mut key = corners;
        self.known = meet_corners(self.words, self.room, self.known, &mut key, tag)?;
        Ok(())
    }
}
