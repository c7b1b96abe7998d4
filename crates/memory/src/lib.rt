// A list stored at the front of a lent slice.
// Rests on `rules` for `overwritten`. The laws of all loops that store are stated once, over the element type (proofs/Stores.antt).
// Promises: what the slice holds on return, by one equation.
#![tactic(auto)]

ghost use Rattle.std.specs.Prelude.{◌≡◌, ◌≤◌, length};
ghost use Rattle.rules.specs.Lists.{overwritten};

// Copies `src` to the front of `dst`. By place, and not by `copy_from_slice`: for that the archive asks C's library for `memmove` besides `memcpy`
// and `memset`, since the compiler does not know that two lent tables lie apart. Nor is it a `zip`: of what is written through one a proof knows
// nothing.
pub fn copy<T: Copy>(src: &[T], dst: &mut [T])
    requires { length src.now ≤ length dst.old }
    ensures { dst.new ≡ overwritten dst.old src.now }
{
    for i in 0..src.len() {
        dst[i] = src[i];
    }
}
