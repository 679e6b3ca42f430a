// The sizes of a store: as a caller hands them in, and in range.
ghost use Rattle.std.specs.Prelude.{◌≡◌};
ghost use Rattle.registers.specs.Opening.{size_of, limits_of, limits_over};

use kinds::fault::StoreFault;

// S slots (1 to 16,384), Y nursery places (1 to 1,024), R registers (1 to 64) and K scans a step (1 to 16,384).
#[derive(Clone, Copy, PartialEq, Eq, Debug)]
pub struct Sizes {
    pub slots: i64,
    pub places: i64,
    pub registers: i64,
    pub scans: i64,
}

// The sizes of an open store; all 0 where it is closed. Two types of the same fields on purpose: their names say which sizes
// are as a caller hands them in, which may be any, and which are in range; `Sizes<i64>` and `Sizes<u32>` would not.
#[derive(Clone, Copy, PartialEq, Eq, Debug, Default)]
pub struct Limits {
    pub slots: u32,
    pub places: u32,
    pub registers: u32,
    pub scans: u32,
}

// A size from 1 to its greatest value.
fn size(v: i64, most: u32) -> Result<u32, StoreFault>
    ensures { result ≡ size_of most v }
{
    u32::try_from(v)
        .ok()
        .filter(|n| (1..=most).contains(n))
        .ok_or(StoreFault::SizeOutOfRange)
}

// All sizes, if each is in its range.
impl TryFrom<Sizes> for Limits {
    type Error = StoreFault;

    ghost try_from_gives = { λ z r. r ≡ limits_of z };

    fn try_from(sizes: Sizes) -> Result<Limits, StoreFault> {
        Ok(Limits {
            slots: size(sizes.slots, 16_384)?,
            places: size(sizes.places, 1_024)?,
            registers: size(sizes.registers, 64)?,
            scans: size(sizes.scans, 16_384)?,
        })
    }
}

impl Limits {
    // The limits of a store of these sizes, if a table of so many places has one for each register.
    pub(crate) fn over(sizes: Sizes, places: usize) -> Result<Limits, StoreFault>
        ensures { result ≡ limits_over sizes places }
    {
        let limits = Limits::try_from(sizes)?;
        if places < limits.registers as usize {
            return Err(StoreFault::TableShort);
        }
        Ok(limits)
    }
}
