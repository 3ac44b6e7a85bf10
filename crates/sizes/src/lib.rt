// The sizes of document 01 for the code, as `specs/Sizes.antt` names them. What follows from others is written as it follows:
// `proofs/Equations.antt` says the same of the definitions.
#![tactic(auto)]

// The places of an envelope are 1 to PLACES.
pub const PLACES: u64 = 10220;

pub const BLOCK_BITS: usize = 257;

// A place, and a data group, has four client blocks; two of them are whole bytes.
pub const GROUP_BITS: usize = 4 * BLOCK_BITS;

pub const PAIR_BYTES: usize = 2 * GROUP_BITS / 8;

pub const CLIENT_BLOCKS: usize = 952;

pub const INFO_BITS: usize = CLIENT_BLOCKS * BLOCK_BITS;

pub const INFO_BYTES: usize = INFO_BITS / 8;

pub const CRC_BITS: usize = 32;

pub const MBAS_FROM: usize = INFO_BITS + CRC_BITS;

pub const MBAS_BITS: usize = 6;

pub const PARITY_FROM: usize = MBAS_FROM + MBAS_BITS;

pub const PARITY_BITS: usize = 16384;

pub const PARITY_BYTES: usize = PARITY_BITS / 8;

pub const FEC_BITS: usize = PARITY_FROM + PARITY_BITS;

pub const FEC_BLOCKS: usize = 5;

pub const PAD_FROM: usize = FEC_BLOCKS * FEC_BITS;

pub const PAD_BITS: usize = 714;

pub const SUPER_BITS: usize = PAD_FROM + PAD_BITS;

pub const SUPER_BYTES: usize = SUPER_BITS / 8;

pub const ELEMENT_BITS: usize = 119;

pub const INFO_ELEMENTS: usize = INFO_BITS / ELEMENT_BITS;

pub const FEC_ELEMENTS: usize = FEC_BITS / ELEMENT_BITS;

pub const SUPER_ELEMENTS: usize = SUPER_BITS / ELEMENT_BITS;

// The first element of a super frame's pad.
pub const PAD_ELEMENT: usize = FEC_BLOCKS * FEC_ELEMENTS;

pub const ROWS: usize = 16;

pub const ROW_WAIT: usize = 32;

// So many words the first row waits in the interleaver: as many more than elements a capture has.
pub const LONGEST_WAIT: usize = ROW_WAIT * (ROWS - 1);

pub const SUPER_CLIENT_BLOCKS: usize = FEC_BLOCKS * CLIENT_BLOCKS;

pub const SUPER_INFO_BYTES: usize = FEC_BLOCKS * INFO_BYTES;

pub const SUPER_PARITY_BYTES: usize = FEC_BLOCKS * PARITY_BYTES;

pub const CHECK_BITS: usize = 9;

pub const WORD_BITS: usize = ELEMENT_BITS + CHECK_BITS;

pub const WORD_BYTES: usize = WORD_BITS / 8;

// Eight words interleave.
pub const GROUP_WORDS: usize = 8;

pub const GROUP_BYTES: usize = GROUP_WORDS * WORD_BYTES;

pub const MOST_FRAMES: usize = 8;

// What a super frame adds to a capture, and what a capture has besides.
pub const SUPER_CAPTURE_BYTES: usize = WORD_BYTES * SUPER_ELEMENTS;

pub const FILLER_BYTES: usize = WORD_BYTES * LONGEST_WAIT;

// A client block in whole bytes.
pub const BLOCK_BYTES: usize = (BLOCK_BITS + 7) / 8;

// The most words that an edit lists, which is the length of its list.
pub const LIST_LENGTH: usize = 145;
