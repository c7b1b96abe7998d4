// The corner across the least corner of a face: of two faces with one corner set it tells whether they have the same neighbours in
// going round.
ghost use Rattle.std.specs.Prelude.{◌≡◌};
ghost use Rattle.soundness.specs.Across.{across};

pub fn across(f: [u32; 4]) -> u32
    ensures { result ≡ across f }
{
    if f[0].min(f[2]) < f[1].min(f[3]) {
        f[0].max(f[2])
    } else {
        f[1].max(f[3])
    }
}
