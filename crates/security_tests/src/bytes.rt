use std::alloc::{AllocError, Global};

/// The bytes of groups of eight hex digits at most.
pub fn bytes_of(alloc: Global, hex: &str) -> Result<Vec<u8>, AllocError> {
    let mut bytes = Vec::new(alloc);
    for group in hex.split(' ') {
        let number = u32::from_str_radix(group, 16).unwrap_or(0).to_be_bytes();
        let front = 4usize.saturating_sub(group.len() / 2);
        bytes.extend_from_slice(number.get(front..).unwrap_or(&[]))?;
    }
    Ok(bytes)
}
