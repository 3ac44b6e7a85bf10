// Coding: information and parity in, a capture out.
#![tactic(auto)]

ghost use Rattle.std.specs.Prelude.{ℕ, ◌≡◌, ◌+◌, ◌*◌, ◌^◌, ◌≤◌, ◌<◌, get_or, length};
ghost use Rattle.prelude.specs.Lists.{tabulate, from_index};
ghost use Rattle.bits.specs.Bits.{bit_at, byte_of, pack};
ghost use Rattle.answer.specs.Outcomes.{Outcome};
ghost use Rattle.answer.specs.Refusals.{answered};
ghost use Rattle.answer.specs.Rows.{answer_of};
ghost use Rattle.crc.specs.Steps.{entries};
ghost use Rattle.sizes.specs.Sizes.{info_bytes, fec_blocks, super_elements, info_length, capture_length, words, most_frames, word_bytes};
ghost use Rattle.line.specs.Fec.{fec_bit, block_crc};
ghost use Rattle.line.specs.Words.{words_of};
ghost use Rattle.hamming_matrix.specs.Steps.{tail_table};
ghost use Rattle.hamming_table.specs.Steps.{byte_table};
ghost use Rattle.scrambling.specs.Steps.{Agree, one_period};
ghost use Rattle.code.specs.Code.{capture_of, code_rows, code_answer, code_leaves};
ghost use Rattle.code.specs.Steps.{plain_bit, tail_bit, Crcs, Granted};

use answer::{Refusal, Refused};

// Words are written eight at a time.
const SUPER_GROUPS: usize = sizes::SUPER_ELEMENTS / sizes::GROUP_WORDS;

const FILLER_GROUPS: usize = sizes::LONGEST_WAIT / sizes::GROUP_WORDS;

// CRC and MBAS stand between the information and the parity.
const GUARD_BITS: usize = sizes::PARITY_FROM - sizes::INFO_BITS;

// Eight super frames have so many FEC blocks.
const MOST_BLOCKS: usize = sizes::MOST_FRAMES * sizes::FEC_BLOCKS;

// Codes n super frames whose FEC blocks count from m0 on. The count is the number of words written.
pub fn code(n: u64, m0: u64, info: &[u8], parity: &[u8], capture: &mut [u8]) -> Result<u64, Refused>
    ensures { Outcome (code_answer n m0 info.now parity.now capture.old)
        (code_leaves n m0 info.now parity.now capture.old) (answered result) capture.new }
{
    let words = judge(
        n,
        m0,
        info.len() as u64,
        parity.len() as u64,
        capture.len() as u64,
    )?;
    code_all(n as usize, m0, info, parity, capture);
    Ok(words)
}

// The answer, from the numbers alone.
fn judge(n: u64, m0: u64, info: u64, parity: u64, capture: u64) -> Result<u64, Refused>
    ensures { answered result ≡ answer_of (code_rows n m0 info parity capture) (words n) }
{
    if !line::numbers_allowed(n, m0) {
        return Err(Refusal::OutsideSet.at(0));
    }
    answer::refuse_length(1, info, sizes::SUPER_INFO_BYTES as u64 * n)?;
    answer::refuse_length(2, parity, sizes::SUPER_PARITY_BYTES as u64 * n)?;
    let capture_bytes = sizes::SUPER_CAPTURE_BYTES as u64 * n + sizes::FILLER_BYTES as u64;
    answer::refuse_length(3, capture, capture_bytes)?;
    Ok(sizes::SUPER_ELEMENTS as u64 * n + sizes::LONGEST_WAIT as u64)
}

// Makes the tables that every word needs, once, and codes.
fn code_all(n: usize, m0: u64, info: &[u8], parity: &[u8], capture: &mut [u8])
    requires { Granted n info.now parity.now capture.old }
    ensures { capture.new ≡ capture_of n m0 info.now parity.now }
{
    let crcs = block_crcs(n, info);
    let mut sequence = [0u8; scrambling::PERIOD_BYTES];
    scrambler::fill(&mut sequence);
    let table = hamming_table::byte_table();
    let tails = hamming_matrix::tail_table();
    let coder = Coder {
        n,
        m0,
        info,
        parity,
        crcs: &crcs,
        sequence: &sequence,
        table: &table,
        tails: &tails,
    };
    coder.write_groups(capture);
}

// The CRCs of the FEC blocks, at most forty.
fn block_crcs(n: usize, info: &[u8]) -> [u32; MOST_BLOCKS]
    requires { (n ≤ most_frames) × (length info.now ≡ info_length n) }
    ensures { Crcs n info.now result }
{
    let table = crc::table();
    let mut crcs = [0u32; MOST_BLOCKS];
    for (t, crc) in crcs[..sizes::FEC_BLOCKS * n].iter_mut().enumerate() {
        *crc = block_crc(&table, info, t);
    }
    crcs
}

// The CRC of FEC block t.
fn block_crc(table: &[u32; 256], info: &[u8], t: usize) -> u32
    requires { (table.now ≡ entries) × (info_bytes * (t + 1) ≤ length info.now) × (t < fec_blocks * 8) }
    ensures { result ≡ block_crc info.now t }
{
    let from = sizes::INFO_BYTES * t;
    crc::crc(table, &info[from..from + sizes::INFO_BYTES])
}

// n super frames, whose FEC blocks count from m0 on, with what is made once and lent: the CRCs of the blocks, the scrambler's period, and
// the tables that give a word its check bits.
#[derive(Clone, Copy)]
struct Coder<'a> {
    n: usize,
    m0: u64,
    info: &'a [u8],
    parity: &'a [u8],
    crcs: &'a [u32; MOST_BLOCKS],
    sequence: &'a [u8; scrambling::PERIOD_BYTES],
    table: &'a [u16; 4096],
    tails: &'a [u16; 512],
    ghost few: { n ≤ most_frames },
    ghost blocks: { (t : ℕ) → t < fec_blocks * n → get_or crcs.now t 0 ≡ block_crc info.now t },
    ghost scrambles: { sequence.now ≡ one_period },
    ghost checks: { table.now ≡ byte_table },
    ghost closes: { tails.now ≡ tail_table },
}

impl Coder<'_> {
    // All words, a group of eight at a time.
    // Kept: cut by index. Over chunks_exact_mut no invariant can name what was written to the parts, and the contract was not proved.
    fn write_groups(&self, capture: &mut [u8])
        requires { length capture.old ≡ capture_length self.now.n }
        ensures { capture.new ≡ capture_of self.now.n self.now.m0 self.now.info.now self.now.parity.now }
    {
        for g in 0..SUPER_GROUPS * self.n + FILLER_GROUPS {
            let from = sizes::GROUP_BYTES * g;
            let bytes = line_order::interleave(self.group(g));
            capture[from..from + sizes::GROUP_BYTES].copy_from_slice(&bytes);
        }
    }

    // Words 8 g .. 8 g + 7.
    fn group(&self, g: usize) -> [[u8; 16]; 8]
        requires { 8 * g + 8 ≤ words self.now.n }
        ensures { result ≡ tabulate 8 (from_index (words_of self.now.n (fec_bit self.now.m0 self.now.info.now self.now.parity.now)) (8 * g)) }
    {
        let mut words = [[0u8; 16]; 8];
        for (j, word) in words.iter_mut().enumerate() {
            *word = self.word(sizes::GROUP_WORDS * g + j);
        }
        words
    }

    // Word w: an element, scrambled and coded, or filler.
    fn word(&self, w: usize) -> [u8; 16]
        requires { w < words self.now.n }
        ensures { result ≡ words_of self.now.n (fec_bit self.now.m0 self.now.info.now self.now.parity.now) w }
    {
        if !line::holds_element(self.n, w) {
            return [0u8; 16];
        }
        let e = line::element_in(w);
        let plain = self.plain_element(e);
        hamming_table::encode_by(
            self.table,
            self.tails,
            scrambling::element(self.sequence, e, plain),
        )
    }

    // Element e before it is scrambled. Only its 119 bits count: those behind them are of whatever follows.
    fn plain_element(&self, e: usize) -> [u8; 16]
        requires { e < super_elements * self.now.n }
        ensures { Agree (bit_at result) (plain_bit (fec_bit self.now.m0 self.now.info.now self.now.parity.now) e) }
    {
        let l = e % sizes::SUPER_ELEMENTS;
        if sizes::PAD_ELEMENT <= l {
            return [0u8; 16];
        }
        let t = sizes::FEC_BLOCKS * (e / sizes::SUPER_ELEMENTS) + l / sizes::FEC_ELEMENTS;
        let m = l % sizes::FEC_ELEMENTS;
        if m < sizes::INFO_ELEMENTS {
            return bits_copy::word_from(self.info, sizes::INFO_BITS * t + sizes::ELEMENT_BITS * m);
        }
        let at = sizes::PARITY_BITS * t;
        if m == sizes::INFO_ELEMENTS {
            return tail_element(self.crcs[t], line::mbas(self.m0, t as u64), self.parity, at);
        }
        bits_copy::word_from(
            self.parity,
            at + (sizes::ELEMENT_BITS * (m - sizes::INFO_ELEMENTS) - GUARD_BITS),
        )
    }
}

// The element of a block's CRC and MBAS, with the parity from bit `at` on behind them.
fn tail_element(crc: u32, mbas: u8, parity: &[u8], at: usize) -> [u8; 16]
    requires { (mbas < 64) × (at < 2 ^ 32) }
    ensures { result ≡ pack word_bytes (tail_bit crc mbas (from_index (bit_at parity.now) at)) }
{
    let mut r = [0u8; 16];
    for (k, byte) in r.iter_mut().enumerate() {
        *byte = tail_byte(crc, mbas, parity, at, k);
    }
    r
}

// Byte k of it: four of CRC, one that MBAS and parity share, then parity.
fn tail_byte(crc: u32, mbas: u8, parity: &[u8], at: usize, k: usize) -> u8
    requires { (mbas < 64) × (at < 2 ^ 32) × (k < word_bytes) }
    ensures { result ≡ byte_of (tail_bit crc mbas (from_index (bit_at parity.now) at)) k }
{
    if k < 4 {
        return crc.to_be_bytes()[k];
    }
    if k == 4 {
        return mbas * 4 + bits::byte_from(parity, at) / 64;
    }
    bits::byte_from(parity, at + (8 * k - GUARD_BITS))
}
