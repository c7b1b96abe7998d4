// Bits that wait until there are four bytes of them.
ghost use Rattle.std.specs.Prelude.{◌≡◌, ℕ, ◌+◌, ◌*◌, ◌^◌, ◌≤◌, ◌<◌, length};

use crate::{append, cut, put_bytes};

// Bits that are to stand from byte `at` on and are not in the buffer yet: `count` bits, at most 32, that spell `bits`.
#[derive(Clone, Copy)]
pub struct Pending {
    at: usize,
    count: u32,
    bits: u64,
    ghost few: { count ≤ 32 },
    ghost spelled: { bits < 2 ^ count },
}

impl Pending {
    ghost use Rattle.bits.specs.Writing.{put_at, end_of, settled};

    // The bits that share a byte with what is put behind the first `at` bits.
    pub fn before(d: &[u8], at: usize) -> Pending
        requires { at < 8 * length d.now }
        ensures { (end_of result ≡ at) × ((k v : ℕ) → put_at (settled d.now result) at k v ≡ put_at d.now at k v) }
    {
        let from = at / 8;
        let count = (at % 8) as u32;
        Pending {
            at: from,
            count,
            bits: cut(u64::from(d[from]), 8 - count, count),
        }
    }

    // Puts the k bits of v behind the pending bits. Of more than 32 bits, the first 32 go to the buffer.
    pub fn put(self, d: &mut [u8], k: u32, v: u32) -> Pending
        requires { (k ≤ 32) × (v < 2 ^ k) × (end_of self + k ≤ 8 * length d.old) }
        ensures { (end_of result ≡ end_of self + k) × (settled d.new result ≡ put_at (settled d.old self) (end_of self) k v) }
    {
        let at = self.at;
        let count = self.count + k;
        let bits = append(self.bits, k, u64::from(v));
        if count <= 32 {
            return Pending { at, count, bits };
        }
        let left = count - 32;
        put_bytes(&mut d[at..at + 4], cut(bits, left, 32) as u32);
        Pending {
            at: at + 4,
            count: left,
            bits: cut(bits, 0, left),
        }
    }

    // Puts the pending bits into the buffer, and zero bits behind them to a whole byte. Answers the bit behind them.
    pub fn settle(self, d: &mut [u8]) -> usize
        requires { (end_of self ≤ 8 * length d.old) × (end_of self ≤ 2 ^ 60) }
        ensures { (result ≡ end_of self) × (d.new ≡ settled d.old self) }
    {
        let n = (self.count + 7) / 8;
        let bits = append(self.bits, 8 * n - self.count, 0);
        put_bytes(&mut d[self.at..self.at + n as usize], bits as u32);
        8 * self.at + (self.count as usize)
    }
}
