// The line: total functions for the layers of document 01 that coding, reading and editing share.
#![tactic(auto)]

ghost use Rattle.std.specs.Prelude.{◌&&◌, ◌≡◌, ◌*◌, ◌/◌, ◌<◌, ltb};
ghost use Rattle.line.specs.Captures.{super_allowed};
ghost use Rattle.line.specs.Fec.{mbas_allowed, block_number, mbas_of};
ghost use Rattle.line.specs.Slots.{slot_of, delay, element_in, holds};

// Whether a capture may have n super frames.
pub fn super_allowed(n: u64) -> bool
    ensures { result ≡ super_allowed n }
{
    (1..=sizes::MOST_FRAMES as u64).contains(&n)
}

// The numbers of FEC blocks have seven bits.
const BLOCK_NUMBERS: u64 = 128;

// Whether a caller may count the FEC blocks from m0 on.
pub fn mbas_allowed(m0: u64) -> bool
    ensures { result ≡ mbas_allowed m0 }
{
    m0 < BLOCK_NUMBERS
}

// Whether both are.
pub fn numbers_allowed(n: u64, m0: u64) -> bool
    ensures { result ≡ (super_allowed n && mbas_allowed m0) }
{
    super_allowed(n) && mbas_allowed(m0)
}

// Whether x is one of the things of which a super frame has so many, counted from 0 over a capture of n super frames.
pub fn one_of(n: u64, each: u32, x: u64) -> bool
    ensures { result ≡ (super_allowed n && ltb x (each * n)) }
{
    super_allowed(n) && x < u64::from(each) * n
}

// The number of FEC block t.
fn block_number(m0: u64, t: u64) -> u64
    ensures { result ≡ block_number m0 t }
{
    (m0 % BLOCK_NUMBERS + t % BLOCK_NUMBERS) % BLOCK_NUMBERS
}

// The MBAS that it carries: the upper six bits.
pub fn mbas(m0: u64, t: u64) -> u8
    ensures { result ≡ mbas_of m0 t }
{
    (block_number(m0, t) / 2) as u8
}

// The row that does not wait.
const LAST_ROW: usize = sizes::ROWS - 1;

// How many words an element waits, by its own row or that of its word: the one place where the delay is written out.
fn wait(w: usize) -> usize
    ensures { result ≡ delay w }
{
    sizes::ROW_WAIT * (LAST_ROW - w % sizes::ROWS)
}

// The slot of element e.
pub fn slot(e: u32) -> usize
    ensures { result ≡ slot_of e }
{
    e as usize + wait(e as usize)
}

// The element that word w holds, if it holds one (`holds_element`); 0 where it comes too early for any.
// Kept: no Option: `one_element_in`, and `listed` and `remade` of edit_spec, speak of this number for every word.
pub fn element_in(w: usize) -> usize
    ensures { result ≡ element_in w }
{
    w.saturating_sub(wait(w))
}

// Whether word w of n super frames holds an element; otherwise it is filler.
pub fn holds_element(n: usize, w: usize) -> bool
    ensures { result ≡ holds n w }
{
    let d = wait(w);
    if w < d {
        return false;
    }
    (w - d) / sizes::SUPER_ELEMENTS < n
}
