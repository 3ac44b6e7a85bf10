// The cases that are chosen one by one.
use crate::files::Swap;

// The count; how many kinds, lengths and bytes of the head there are; and which kind and which length is replaced by what. Counts in and outside their set
// (the longest lists have 40 numbers, and their head 400 bytes); the last offset the most that its field holds, then one more; several faults at once.
pub const WRITES: [(u64, usize, usize, usize, Swap, Swap); 29] = [
    (0, 0, 0, 18, None, None),
    (1, 1, 1, 27, None, None),
    (2, 2, 2, 36, None, None),
    (3, 3, 3, 45, None, None),
    (31, 31, 31, 297, None, None),
    (32, 32, 32, 306, None, None),
    (33, 33, 33, 315, None, None),
    (34, 34, 34, 324, None, None),
    (65536, 40, 40, 400, None, None),
    (65537, 40, 40, 400, None, None),
    (4294967296, 40, 40, 400, None, None),
    (4294967297, 40, 40, 400, None, None),
    (18446744073709551615, 40, 40, 400, None, None),
    (2, 2, 2, 36, None, Some((0, 4294967259))),
    (2, 2, 2, 36, None, Some((0, 4294967260))),
    (32, 32, 32, 306, None, Some((0, 4294471989))),
    (32, 32, 32, 306, None, Some((0, 4294471990))),
    (32, 32, 32, 306, None, Some((30, 4294501989))),
    (32, 32, 32, 306, None, Some((30, 4294501990))),
    (1, 1, 0, 27, Some((0, 9)), None),
    (33, 33, 33, 315, Some((0, 9)), None),
    (2, 1, 2, 36, None, Some((1, 4294967296))),
    (2, 2, 1, 36, Some((1, 9)), None),
    (2, 2, 1, 36, Some((0, 9)), None),
    (2, 3, 3, 36, Some((2, 9)), None),
    (2, 1, 3, 36, None, Some((0, 4294967296))),
    (32, 31, 32, 306, Some((31, 0)), None),
    (32, 31, 32, 306, Some((30, 0)), None),
    (0, 1, 1, 18, Some((0, 9)), Some((0, 4294967296))),
];

pub const KINDS: [u64; 6] = [0, 4, 255, 256, 257, u64::MAX];

pub const LENGTHS: [u64; 4] = [0, 4294967295, 4294967296, u64::MAX];

// How many entries the head was made for; the file's size; two bytes that are set; with how many bytes it is handed in; and how many numbers the lists
// have. Other counts than the head was made for; of three entries, whose file has 6045 bytes, several faults at once; number 2 where 10 would apply too.
pub const READS: [(u64, u64, Swap, Swap, u64, usize, usize, usize); 28] = [
    (2, 3036, Some((16, 1)), None, 1, 32, 32, 32),
    (2, 3036, Some((17, 0)), None, 1, 32, 32, 32),
    (2, 3036, Some((17, 1)), None, 1, 32, 32, 32),
    (2, 3036, Some((17, 3)), None, 1, 32, 32, 32),
    (2, 3036, Some((17, 32)), None, 1, 32, 32, 32),
    (2, 3036, Some((17, 33)), None, 1, 32, 32, 32),
    (2, 3036, Some((17, 255)), None, 1, 32, 32, 32),
    (3, 6045, Some((22, 9)), Some((36, 9)), 1, 32, 32, 32),
    (3, 37, Some((36, 9)), None, 1, 32, 32, 32),
    (3, 44, Some((36, 9)), None, 1, 32, 32, 32),
    (3, 45, Some((36, 9)), None, 1, 32, 32, 32),
    (3, 6045, Some((18, 0)), Some((36, 0)), 1, 32, 32, 32),
    (3, 6045, Some((27, 0)), Some((22, 9)), 1, 32, 32, 32),
    (3, 6045, Some((0, 0)), Some((17, 0)), 1, 32, 32, 32),
    (3, 6045, Some((17, 0)), Some((18, 0)), 1, 32, 32, 32),
    (3, 6045, Some((22, 9)), Some((31, 9)), 1, 32, 32, 32),
    (3, 6046, Some((31, 9)), None, 1, 32, 32, 32),
    (3, 6044, Some((40, 9)), None, 1, 32, 32, 32),
    (3, 40, Some((22, 9)), None, 1, 32, 32, 32),
    (3, 40, Some((22, 9)), Some((27, 7)), 1, 32, 32, 32),
    (3, 17, Some((0, 0)), None, 1, 32, 32, 32),
    (3, 17, Some((16, 9)), None, 1, 32, 32, 32),
    (3, 18, Some((17, 0)), None, 1, 32, 32, 32),
    (2, 10, None, None, 0, 32, 32, 32),
    (2, 10, None, None, 2, 32, 32, 32),
    (2, 10, None, None, 1, 0, 32, 32),
    (2, 10, None, None, 1, 32, 0, 32),
    (2, 10, None, None, 1, 32, 32, 0),
];

// A file's size: some bytes; or the end of its last body, and one byte less or more.
#[derive(Clone, Copy)]
pub enum Size {
    Bytes(u64),
    Short,
    Whole,
    Long,
}

// Sizes on both sides of each edge.
pub const SIZES: [Size; 19] = [
    Size::Bytes(0),
    Size::Bytes(1),
    Size::Bytes(15),
    Size::Bytes(16),
    Size::Bytes(17),
    Size::Bytes(18),
    Size::Bytes(19),
    Size::Bytes(26),
    Size::Bytes(27),
    Size::Bytes(28),
    Size::Bytes(35),
    Size::Bytes(36),
    Size::Short,
    Size::Whole,
    Size::Long,
    Size::Bytes(4294967295),
    Size::Bytes(4294967296),
    Size::Bytes(9223372036854775808),
    Size::Bytes(u64::MAX),
];

// How many entries, and which of them has a body of 4294967295 bytes.
pub const LARGE: [(u64, u64); 5] = [(1, 0), (2, 1), (32, 31), (2, 0), (32, 0)];

// The heads that are changed have so many entries.
pub const SOME: [u64; 3] = [1, 2, 32];
