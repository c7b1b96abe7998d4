// Bit fields in and out of bytes, most significant first; tables of fields; the index width.
//
// Shifts and masks stand in two leaves, `append` and `cut`, whose contracts are plain arithmetic. A field is got and put through the few
// bytes that hold it, as one number (`get_bytes`, `put_bytes`). Where the count of bytes is a constant, the compiler makes one load or store
// of them: so all fields but a file's first are got from eight bytes, and fields are put behind bits that wait until there are four bytes
// (`Pending`). Above that everything goes by the definitions of `rules` (Bits, StoredForm) and the laws of proofs/: what is put is got
// again, fields put one behind another are their stored form, and a field is what a reader of the list of bits expects. A table's entries are
// indices, or coordinates of 30 bits: what differs between them is said once (`Entry`).
#![tactic(auto)]

ghost use Rattle.std.specs.Prelude.{◌≡◌, false, map, ℕ, ◌+◌, ◌*◌, ◌/◌, ◌%◌, ◌^◌, ◌≤◌, ◌<◌, length, All, refl};
ghost use Rattle.rules.specs.Lists.{overwritten};
ghost use Rattle.rules.specs.Refusals.{outside};
ghost use Rattle.rules.specs.Bits.{number, field_at, table_at, bytes_of, width_of};
ghost use Rattle.rules.specs.StoredForm.{to_field, of_field, table_fields};
ghost use Rattle.bits.specs.Writing.{put_at, put_all};
ghost use Rattle.bits.specs.Entries.{of_field_to_field};

use crate::pending::Pending;

mod pending;

// ---- leaves: shifts and masks

// x, and the k bits of v behind it.
fn append(x: u64, k: u32, v: u64) -> u64
    requires { (k < 64) × (x * 2 ^ k < 2 ^ 64) × (v < 2 ^ k) }
    ensures { result ≡ x * 2 ^ k + v }
{
    (x << k) | v
}

// The k bits of x that have `below` bits below them.
fn cut(x: u64, below: u32, k: u32) -> u64
    requires { (below < 64) × (k < 64) }
    ensures { result ≡ x / 2 ^ below % 2 ^ k }
{
    (x >> below) & ((1 << k) - 1)
}

// ---- bytes as one number

// The number that bytes spell: at most eight. One by one: with the last eight as an array (`split_last_chunk`) and `from_be_bytes`, which
// proves, reading takes 3 to 4 % more instructions, and with zeros put before fewer bytes 8 %.
fn get_bytes(s: &[u8]) -> u64
    requires { length s.now ≤ 8 }
    ensures { result ≡ number s.now }
{
    let mut x: u64 = 0;
    for byte in s {
        x = append(x, 8, u64::from(*byte));
    }
    x
}

// Stores the bytes that spell x: at most four, its last.
fn put_bytes(d: &mut [u8], x: u32)
    requires { length d.old ≤ 4 }
    ensures { d.new ≡ bytes_of (length d.old) x }
{
    let n = d.len();
    d.copy_from_slice(&x.to_be_bytes()[4 - n..]);
}

// ---- a field out of bytes

// The field of k bits at bit `at`. It ends in byte n - 1 of the file: the eight bytes up to there hold it, or all n if there are fewer.
pub fn get_field(s: &[u8], at: usize, k: u32) -> u32
    requires { (k ≤ 32) × (at + k ≤ 8 * length s.now) × (at + k ≤ 2 ^ 60) }
    ensures { result ≡ field_at s.now at k }
{
    let end = at + (k as usize);
    let n = (end + 7) / 8;
    let after = (8 * n - end) as u32;
    if n < 8 {
        return cut(get_bytes(&s[..n]), after, k) as u32;
    }
    cut(get_bytes(&s[n - 8..n]), after, k) as u32
}

// ---- fields into bytes

// Writes the k bits of v behind the first `at` bits, and zero bits behind them to a whole byte. Answers the bit behind the field. That a width
// is at most 32, that a field lies in the file and that bits are counted below 2^60 is asked in each contract here, and that a value fits its
// width in three: a struct of these would be made for one call.
pub fn put_field(d: &mut [u8], at: usize, k: u32, v: u32) -> usize
    requires { (0 < k) × (k ≤ 32) × (v < 2 ^ k) × (at + k ≤ 8 * length d.old) × (at + k ≤ 2 ^ 60) }
    ensures { (result ≡ at + k) × (d.new ≡ put_at d.old at k v) }
{
    Pending::before(d, at).put(d, k, v).settle(d)
}

// ---- a table: fields of one width

// What a table holds: each entry stands in a file as a field. `From` cannot say it: both types are the language's own.
pub trait Entry: Copy {
    // The field of an entry.
    ghost field: { Self → ℕ };

    // The entry of a field.
    ghost entry: { ℕ → Self };

    // Which entries have a field.
    ghost HasField: { Self → Type 0 };

    // Which numbers are an entry's field.
    ghost IsField: { ℕ → Type 0 };

    fn to_field(self) -> u32
        requires { HasField self }
        ensures { result ≡ field self };

    fn of_field(v: u32) -> Self
        requires { IsField v }
        ensures { result ≡ entry v };

    // An entry as a field and back is the same.
    ghost back: { (x : Self) → HasField x → entry (field x) ≡ x };
}

// An index is its own field.
impl Entry for u32 {
    ghost field = { λ x. x };

    ghost entry = { λ v. v };

    ghost HasField = { λ _. Unit {0} };

    ghost IsField = { λ _. Unit {0} };

    fn to_field(self) -> u32 {
        self
    }

    fn of_field(v: u32) -> u32 {
        v
    }

    ghost back = { λ x h. refl };
}

// A coordinate is a field of 30 bits, in two's complement.
impl Entry for i32 {
    ghost field = { to_field };

    ghost entry = { of_field };

    ghost HasField = { λ z. outside z ≡ false };

    ghost IsField = { λ v. v < 2 ^ 30 };

    fn to_field(self) -> u32 {
        if self < 0 {
            (self + 0x4000_0000) as u32
        } else {
            self as u32
        }
    }

    #[tactic(auto, using(crate::proofs::Coordinates::word_low, crate::proofs::Coordinates::word_high))]
    fn of_field(v: u32) -> i32 {
        if v < 0x2000_0000 {
            v as i32
        } else {
            v as i32 - 0x4000_0000
        }
    }

    ghost back = { of_field_to_field };
}

// Reads n entries of w bits from bit `at` on into the front of t. Their count stands beside t, since of a part of a slice that is lent out of a
// struct's field only the length is known afterwards.
pub fn get_table<T: Entry>(s: &[u8], at: usize, w: u32, t: &mut [T], n: usize)
    requires room { (w ≤ 32) × (n ≤ length t.old) × (at + w * n ≤ 8 * length s.now) × (at + w * n ≤ 2 ^ 60) }
    requires fields { (v : ℕ) → v < 2 ^ w → T.IsField v }
    ensures { t.new ≡ overwritten t.old (map T.entry (table_at s.now at w n)) }
{
    let mut p = at;
    let front = &mut t[..n];
    for x in front.iter_mut() {
        *x = T::of_field(get_field(s, p, w));
        p += w as usize;
    }
}

// Writes the entries of t, w bits each, from bit `at` on. Answers the bit behind the last. It is not inlined, so that its loop has the registers
// to itself: inlined into a function that writes five tables it is a sixth slower.
#[inline(never)]
pub fn put_table<T: Entry>(d: &mut [u8], at: usize, w: u32, t: &[T]) -> usize
    requires room { (0 < w) × (w ≤ 32) × (at + w * length t.now ≤ 8 * length d.old) × (at + w * length t.now ≤ 2 ^ 60) }
    requires entries { All (λ x. T.HasField x × (T.field x < 2 ^ w)) t.now }
    ensures { (result ≡ at + w * length t.now) × (d.new ≡ put_all d.old at (table_fields w (map T.field t.now))) }
{
    if t.is_empty() {
        return at;
    }
    let mut p = Pending::before(d, at);
    for x in t {
        p = p.put(d, w, x.to_field());
    }
    p.settle(d)
}

// ---- the index width

// The width of an index field where n is the highest vertex number.
pub fn index_width(n: u32) -> u32
    ensures { result ≡ width_of n }
{
    if n == 0 { 1 } else { 32 - n.leading_zeros() }
}
