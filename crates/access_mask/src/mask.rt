ghost use Rattle.std.specs.Prelude.{⊤, [], ◌∷◌, codes};

use bitflags::{Flag, Flags, bitflag_items};

/// An `ACCESS_MASK` of Win32: a right a bit. The bits that every object has in common have names;
/// what the others mean depends on the object, and they are kept as they are.
#[derive(Clone, Copy, PartialEq, Eq, Debug)]
pub struct AccessMask(u32);

bitflag_items! {
    impl AccessMask: u32 {
        const GENERIC_READ = 0x8000_0000;
        const GENERIC_WRITE = 0x4000_0000;
        const GENERIC_EXECUTE = 0x2000_0000;
        const GENERIC_ALL = 0x1000_0000;
        const MAXIMUM_ALLOWED = 0x0200_0000;
    }
}

impl Flags for AccessMask {
    type Bits = u32;

    ghost exact = { ⊤ };

    ghost table = { (codes "GENERIC_READ", 0x80000000)
        ∷ (codes "GENERIC_WRITE", 0x40000000)
        ∷ (codes "GENERIC_EXECUTE", 0x20000000)
        ∷ (codes "GENERIC_ALL", 0x10000000)
        ∷ (codes "MAXIMUM_ALLOWED", 0x02000000)
        ∷ [] };

    ghost set_of = { λ mask. mask.0 };

    fn flags<'a>() -> &'a [Flag<AccessMask>] {
        AccessMask::FLAGS
    }

    fn bits(&self) -> u32 {
        self.0
    }

    fn from_bits_retain(bits: u32) -> AccessMask {
        AccessMask(bits)
    }
}
