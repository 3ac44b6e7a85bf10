// Lists and files as they are before a call. A byte that a file does not have is not set.

// More than any case looks at.
pub const SPACE: usize = 400;

// The bytes that every capture file begins with.
const FIXED: [u8; 16] = *b"400ZR CAPTURE 1\n";

// Which one of several is replaced by what, if one is.
pub type Swap = Option<(u64, u64)>;

// Number i of several, where it is `usual` if it is not the one that is replaced.
fn replaced(swap: Swap, i: u64, usual: u64) -> u64 {
    match swap {
        Some((e, x)) => if e == i { x } else { usual },
        None => usual,
    }
}

// Number i of the kinds.
pub fn kind_of(i: u64, swap: Swap) -> u64 {
    replaced(swap, i, 1 + i % 3)
}

// Number i of the lengths.
pub fn length_of(i: u64, swap: Swap) -> u64 {
    replaced(swap, i, 1000 * (i % 100 + 1))
}

// Where the body of entry e of n begins; where entry n's would is the end of the file.
pub fn offset(n: u64, lengths: Swap, e: u64) -> u64 {
    (0..e).fold(
        18 + 9 * (n % 100),
        |at, i| at.wrapping_add(length_of(i, lengths)),
    )
}

pub fn set(bytes: &mut [u8], at: u64, x: u64) {
    if let Some(b) = bytes.get_mut(at as usize) {
        *b = (x % 256) as u8;
    }
}

// Four bytes, high byte first.
fn set_field(bytes: &mut [u8], at: u64, x: u64) {
    let a = at % 1000;
    set(bytes, a, x / 16777216);
    set(bytes, a + 1, x / 65536);
    set(bytes, a + 2, x / 256);
    set(bytes, a + 3, x);
}

fn set_entry(bytes: &mut [u8], n: u64, lengths: Swap, e: u64) {
    let at = 18 + 9 * (e % 100);
    set(bytes, at, kind_of(e, None));
    set_field(bytes, at + 1, offset(n, lengths, e));
    set_field(bytes, at + 5, length_of(e, lengths));
}

// The fixed bytes.
fn set_begin(bytes: &mut [u8]) {
    for (to, from) in bytes.iter_mut().zip(&FIXED) {
        *to = *from;
    }
}

// A head made by the rule for n entries, whatever n is.
pub fn set_head(bytes: &mut [u8], n: u64, lengths: Swap) {
    set_begin(bytes);
    set(bytes, 17, n);
    for e in 0..n {
        set_entry(bytes, n, lengths, e);
    }
}
