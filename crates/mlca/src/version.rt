// The version of the interface for C.
ghost use Rattle.std.specs.Prelude.{◌≡◌};

// 1.1.0, as 10,000 · major + 100 · minor + patch.
pub const VERSION: u32 = 1_01_00;

#[unsafe(no_mangle)]
pub extern "C" fn mlca_version() -> u32
    ensures { result ≡ 10100 }
{
    VERSION
}
