ghost use Rattle.std.specs.Prelude.{◌≡◌, ◌==◌, ◌+◌, ◌*◌, ◌≤◌, false, length, drop, IfOk};
ghost use Rattle.std.specs.List.{list_any};
ghost use Rattle.scm_text.specs.Fold.{HasNoZero};
ghost use Rattle.ndr_body.specs.Units.{half, le_units};

use std::alloc::{AllocError, Global};

/// The number of two bytes.
#[tactic(auto, unfolding(crate::specs::Units::half))]
pub fn half_of(bytes: &[u8], at: usize) -> u16
    requires { at + 2 ≤ length bytes.now }
    ensures { result ≡ half (drop at bytes.now) }
{
    u16::from_le_bytes([bytes[at], bytes[at + 1]])
}

/// Some units of two bytes each, the low byte first.
#[tactic(auto, using(crate::proofs::UnitLists::units_more, crate::proofs::UnitLists::no_units))]
pub fn units_of(alloc: Global, bytes: &[u8], count: usize) -> Result<Vec<u16>, AllocError>
    requires { 2 * count ≤ length bytes.now }
    ensures { IfOk result (λ units. units.items ≡ le_units count bytes.now) }
{
    let mut units = Vec::with_capacity(alloc, count)?;
    for i in 0..count {
        units.push_reserved(half_of(bytes, 2 * i));
    }
    Ok(units)
}

/// Whether one of the units is 0.
pub fn has_zero(units: &[u16]) -> bool
    ensures value { result ≡ list_any (λ u. u == 0) units.now }
    ensures none { result ≡ false → HasNoZero units.now }
{
    units.iter().any(|unit| *unit == 0)
}
