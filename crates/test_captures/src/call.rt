// What coding and reading are called with.

// A length is cut to these: a space, and no more, has room for it.
pub const LARGE: usize = buffer_sizes::LARGE_BYTES;

pub const SMALL: usize = buffer_sizes::SMALL_BYTES;

// The numbers of a call, and the lengths of its buffers.
#[derive(Clone, Copy)]
pub struct Call {
    pub n: u64,
    pub m0: u64,
    pub info: usize,
    pub parity: usize,
    pub capture: usize,
}

impl Call {
    // With buffers of the stated lengths.
    pub fn stated(n: u64, m0: u64) -> Call {
        Call {
            n,
            m0,
            info: buffer_sizes::information(n),
            parity: buffer_sizes::parity(n),
            capture: buffer_sizes::capture(n),
        }
    }
}
