// A hash table with chains in a lent slice (no heap, so no map): the heads of room + 1 slots, then the entries, each a link and a key. The
// words, the room and the count of keys stand side by side: as a struct with `meet` as its method, refining took 4.0 % more instructions on a
// grid of hexes and 3.7 % more where hexes share a face (3 % fewer on segments), and the bar is 0.5 %. Still to do: a struct as far as
// `meet_parts`, which takes its fields once for a cell: at most 0.15 % more in any row.
ghost use Rattle.std.specs.Prelude.{◌≡◌, ◌↔◌, IsTrue, ◌+◌, ◌^◌, ◌≤◌, ◌<◌, length, replicate};
ghost use Rattle.std.proofs.lemmas.List.Edits.{sets};
ghost use Rattle.rules.specs.Lists.{index_of, overwritten};
ghost use Rattle.numbering.specs.Table.{run, slot_of, place, words_for, keys, Table, Met};
ghost use Rattle.numbering.specs.Meeting.{Found, Answered};

// What meeting a key answers: the key's number, and how many keys there are then.
#[derive(Clone, Copy)]
pub struct MetKey {
    pub number: usize,
    pub known: usize,
}

// Where the entry of this number starts, where keys have c numbers: behind the heads of all slots and the entries before it.
pub fn place(room: usize, c: usize, number: usize) -> usize
    requires fits { place c room number < 2 ^ 64 }
    requires short { c + 1 < 2 ^ 64 }
    ensures { result ≡ place c room number }
{
    room + 1 + (c + 1) * number
}

// How many words a table takes that has room for so many keys of c numbers.
pub fn size(room: usize, c: usize) -> usize
    requires fits { words_for c room < 2 ^ 64 }
    requires short { c + 1 < 2 ^ 64 }
    ensures { result ≡ words_for c room }
{
    place(room, c, room)
}

// Makes a table of no key, whatever the slice held.
pub fn prepare(w: &mut [u32], room: usize)
    requires { room + 1 ≤ length w.old }
    ensures { w.new ≡ overwritten w.old (replicate (room + 1) 0) }
{
    w[..room + 1].fill(0);
}

// The slot of a key.
fn slot(room: usize, key: &[u32]) -> usize
    requires { room + 1 < 2 ^ 32 }
    ensures { result ≡ slot_of room key.now }
{
    let mut mixed = 0;
    let mut sum = 0;
    for x in key {
        let x = *x as usize;
        mixed = (mixed + x) * 1640531527 % 4294967296;
        sum = (sum + x) % 4294967296;
    }
    (4 * sum + mixed / 65536) % (room + 1)
}

// Whether the key stands in the list from `at` on. A loop, as keys are short: `==` of slices is a call here, and met keys 40 % slower.
fn is_at(w: &[u32], at: usize, key: &[u32]) -> bool
    requires { at + length key.now ≤ length w.now }
    ensures { IsTrue result ↔ run w.now at (length key.now) ≡ key.now }
{
    for (x, y) in w[at..at + key.len()].iter().zip(key) {
        if x != y {
            return false;
        }
    }
    true
}

// The number of a key that is in slot s, if it is among the n in the table.
#[tactic(auto, using(crate::proofs::Entries::slot_below))]
fn find(w: &[u32], room: usize, n: usize, s: usize, key: &[u32]) -> Option<usize>
    requires table { Table (length key.now) w.now room n }
    requires s_value { s ≡ slot_of room key.now }
    ensures { Found (keys (length key.now) w.now room n) key.now result }
{
    let mut link = w[s] as usize;
    // A test against 0: an `Option` of what is one less takes three instructions more at each link.
    while 0 < link {
        let number = link - 1;
        let at = place(room, key.len(), number);
        if is_at(w, at + 1, key) {
            return Some(number);
        }
        link = w[at] as usize;
    }
    None
}

// Stores the key from `at` on. A loop, as keys are short: `copy_from_slice` is a call where their length is not known.
fn put(w: &mut [u32], at: usize, key: &[u32])
    requires { at + length key.now ≤ length w.old }
    ensures { w.new ≡ sets w.old at key.now }
{
    for (i, x) in key.iter().enumerate() {
        w[at + i] = *x;
    }
}

// Enters a new key, which is in slot s, as the number n.
#[tactic(auto, using(crate::proofs::Entries::slot_below))]
fn enter(w: &mut [u32], room: usize, n: usize, s: usize, key: &[u32])
    requires table { Table (length key.now) w.old room n }
    requires n_lt_room { n < room }
    requires s_value { s ≡ slot_of room key.now }
    requires n_bound { n ≤ index_of key.now (keys (length key.now) w.old room n) }
    ensures { Met (length key.now) w.old w.new room n key.now n (n + 1) }
{
    let at = place(room, key.len(), n);
    w[at] = w[s];
    put(w, at + 1, key);
    w[s] = (n + 1) as u32;
}

// Meets a key in a table of n keys; the answer is `None` where it is new and there is no room for it.
#[tactic(auto, using(crate::proofs::Entries::length_keys))]
pub fn meet(w: &mut [u32], room: usize, n: usize, key: &[u32]) -> Option<MetKey>
    requires { Table (length key.now) w.old room n }
    ensures { Answered (length key.now) w.old w.new room n key.now result }
{
    let s = slot(room, key);
    if let Some(number) = find(w, room, n, s, key) {
        return Some(MetKey { number, known: n });
    }
    if room <= n {
        return None;
    }
    enter(w, room, n, s, key);
    Some(MetKey {
        number: n,
        known: n + 1,
    })
}
