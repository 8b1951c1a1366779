ghost use Rattle.std.specs.Prelude.{◌≡◌, ◌+◌, ◌*◌, ◌≤◌, ◌++◌, drop, length, OnOk};
ghost use Rattle.sec_desc.specs.Numbers.{number_16, number_32, numbers_32};
ghost use Rattle.scm_text.specs.Numbers.{has_bits};

use scm_text::{Items, OutOfMemory};

/// The number of the two bytes at a place.
#[tactic(auto, unfolding(crate::specs::Numbers::number_16))]
pub fn u16_at(bytes: &[u8], at: usize) -> u16
    requires { at + 2 ≤ length bytes.now }
    ensures { result ≡ number_16 (drop at bytes.now) }
{
    u16::from_le_bytes([bytes[at], bytes[at + 1]])
}

/// The number of the four bytes at a place.
#[tactic(auto, unfolding(crate::specs::Numbers::number_32))]
pub fn u32_at(bytes: &[u8], at: usize) -> u32
    requires { at + 4 ≤ length bytes.now }
    ensures { result ≡ number_32 (drop at bytes.now) }
{
    u32::from_le_bytes([bytes[at], bytes[at + 1], bytes[at + 2], bytes[at + 3]])
}

/// Appends so many numbers of four bytes each.
#[tactic(auto, using(crate::proofs::NumberLists::one_more, crate::proofs::NumberLists::none_yet))]
pub fn append_numbers(to: &mut Items<u32>, bytes: &[u8], count: usize) -> Result<(), OutOfMemory>
    requires { 4 * count ≤ length bytes.now }
    ensures { OnOk result (to.new ≡ to.old ++ numbers_32 count bytes.now) }
{
    for i in 0..count {
        if to.push(u32_at(bytes, 4 * i)).is_err() {
            return Err(OutOfMemory);
        }
    }
    Ok(())
}

/// Whether the mask has each of the bits.
pub fn has_bits(mask: u32, bits: u32) -> bool
    ensures { result ≡ has_bits mask bits }
{
    mask & bits == bits
}
