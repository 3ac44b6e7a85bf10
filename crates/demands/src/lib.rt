// A client of the coder that sees only its promises. The contracts here are the customer's demands: were a promise too weak, they could not
// be proved.
#![tactic(auto)]

ghost use Rattle.std.specs.Prelude.{◌≡◌, List, ℕ, length};
ghost use Rattle.answer.specs.Outcomes.{Outcome};
ghost use Rattle.answer.specs.Refusals.{answered};
ghost use Rattle.answer.specs.Demand1.{Demand1};
ghost use Rattle.prelude.specs.Loops.{count};
ghost use Rattle.sizes.specs.Sizes.{words};
ghost use Rattle.code.specs.Code.{capture_of, code_rows};
ghost use Rattle.read_spec.specs.Read.{is_seen, given, read_rows};
ghost use Rattle.edit_spec.specs.Edit.{listed, edited, edit_rows};
ghost use Rattle.gmp_map.specs.RoundTrip.{map_unmap_answer, map_unmap_leaves};
ghost use Rattle.demand_laws.specs.Demand2.{flip_if};
ghost use Rattle.demands.specs.Demands.{flips_of, CodesAndReads, CodesAndEdits};
ghost use Rattle.demands.specs.Steps.{flipped_bytes};

use answer::Refused;

// Demand 1 of coding.
pub fn code(n: u64, m0: u64, info: &[u8], parity: &[u8], capture: &mut [u8]) -> Result<u64, Refused>
    ensures { Demand1 (code_rows n m0 (length info.now) (length parity.now) (length capture.old)) (words n)
        (capture_of n m0 info.now parity.now) capture.old (answered result) capture.new }
{
    capture::code(n, m0, info, parity, capture)
}

// Demand 1 of reading.
pub fn read(
    n: u64,
    m0: u64,
    capture: &[u8],
    info: &mut [u8],
    parity: &mut [u8],
) -> Result<u64, Refused>
    ensures { Demand1 {B = List ℕ × List ℕ} (read_rows n m0 capture.now info.old parity.old)
        (count (is_seen capture.now) (words n)) (given n capture.now) (info.old, parity.old) (answered result)
        (info.new, parity.new) }
{
    capture::read(n, m0, capture, info, parity)
}

// Demand 1 of editing.
pub fn edit(
    n: u64,
    block: u64,
    bits: &[u8],
    parity: &[u8],
    capture: &mut [u8],
    list: &mut [u64],
) -> Result<u64, Refused>
    ensures { Demand1 {B = List ℕ × List ℕ} (edit_rows n block bits.now parity.now capture.old list.old)
        (count (listed n block) (words n)) (edited n block bits.now parity.now capture.old list.old)
        (capture.old, list.old) (answered result) (capture.new, list.new) }
{
    capture::edit(n, block, bits, parity, capture, list)
}

// Demand 2: codes, flips in word w the bit that flips[w] names (128 or more is none), and reads.
// Kept: 128 and no Option, as `flips_of` in the clause takes the bytes lent; and buffer by buffer, here and below, as the clauses of capture take them.
pub fn code_flip_read(
    n: u64,
    m0: u64,
    info: &[u8],
    parity: &[u8],
    flips: &[u8],
    capture: &mut [u8],
    back: &mut [u8],
    parity_back: &mut [u8],
) -> Result<u64, Refused>
    ensures { CodesAndReads n m0 info.now parity.now flips.now capture.old back.old
        parity_back.old (answered result) (capture.new, (back.new, parity_back.new)) }
{
    let _ = capture::code(n, m0, info, parity, capture)?;
    flip_bits(flips, capture);
    capture::read(n, m0, capture, back, parity_back)
}

// Flips the named bits, word by word.
// Kept: a loop over numbers. The words of a capture are interleaved: one is taken and put by its number, from no slice.
fn flip_bits(flips: &[u8], capture: &mut [u8])
    ensures { capture.new ≡ flipped_bytes flips.now capture.old }
{
    for w in 0..capture.len() / sizes::WORD_BYTES {
        let v = flip_word(line_order::word_in(capture, w), flip_of(flips, w));
        line_order::put_word(capture, w, v);
    }
}

// The word v with its bit p flipped, if it has one.
fn flip_word(mut v: [u8; 16], p: usize) -> [u8; 16]
    ensures { result ≡ flip_if v p }
{
    if p < sizes::WORD_BITS {
        v[p / 8] ^= 128 >> (p % 8);
    }
    v
}

// The bit that is flipped in word w, or none.
fn flip_of(flips: &[u8], w: usize) -> usize
    ensures { result ≡ flips_of flips.now w }
{
    flips.get(w).map_or(sizes::WORD_BITS, |p| usize::from(*p))
}

// Demand 3: codes, and edits one client block with its FEC block's parity.
pub fn code_edit(
    n: u64,
    m0: u64,
    block: u64,
    info: &[u8],
    parity: &[u8],
    bits: &[u8],
    new_parity: &[u8],
    capture: &mut [u8],
    list: &mut [u64],
) -> Result<u64, Refused>
    ensures { CodesAndEdits n m0 block info.now parity.now bits.now new_parity.now capture.old
        list.old (answered result) (capture.new, list.new) }
{
    let _ = capture::code(n, m0, info, parity, capture)?;
    capture::edit(n, block, bits, new_parity, capture, list)
}

// The round trip of windows: maps groups into a window, and takes them out again where that was done.
pub fn map_unmap(
    c: u64,
    f: u64,
    n: u64,
    groups: &[u8],
    window: &mut [u8],
    back: &mut [u8],
) -> Result<u64, Refused>
    ensures { Outcome {B = List ℕ × List ℕ} (map_unmap_answer c f n groups.now window.old back.old)
        (map_unmap_leaves c f n groups.now window.old back.old) (answered result) (window.new, back.new) }
{
    let _ = gmp_map::map(c, f, n, groups, window)?;
    gmp_map::unmap(c, f, n, window, back)
}
