// What is wrong with the buffers of a call. Their lengths are a pattern, a number whose digits to base 3 are those of the buffers, that of the first one last.

// The length by the last digit: 0 is the stated one, 1 one less, 2 one more. No buffer is stated to be empty, or as long as a space.
pub fn length(stated: usize, pattern: u64) -> usize {
    match pattern % 3 {
        1 => stated.saturating_sub(1),
        2 => stated.saturating_add(1),
        _ => stated,
    }
}

// What is said of a call whose spare bits are not zero.
pub fn spare_said(spare: u8) -> &'static str {
    if spare == 0 {
        ""
    } else {
        " with a spare bit set"
    }
}

// Bytes made from a seed. Of byte `last` the bits under the mask stay, and its spare bits are those that are given.
pub fn with_spare<const N: usize>(seed: u64, last: usize, mask: u8, spare: u8) -> [u8; N] {
    let mut bytes = [0u8; N];
    test_input::fill(seed, &mut bytes);
    if let Some(byte) = bytes.get_mut(last) {
        *byte = *byte & mask | spare;
    }
    bytes
}
