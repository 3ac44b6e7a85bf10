// Reading a capture: every refusal is known before the first byte is written.
#![tactic(auto)]

ghost use Rattle.std.specs.Prelude.{not, ◌&&◌, ◌≡◌, ◌+◌, ◌*◌, ◌^◌, ◌<◌, ◌≤◌, eqb, length, get_or};
ghost use Rattle.prelude.specs.Lists.{tabulate, from_index};
ghost use Rattle.bits.specs.Bits.{num, bit_at, pack};
ghost use Rattle.prelude.specs.Loops.{upto};
ghost use Rattle.answer.specs.Outcomes.{Outcome};
ghost use Rattle.answer.specs.Refusals.{answered};
ghost use Rattle.crc.specs.Crc.{crc_of};
ghost use Rattle.crc.specs.Steps.{entries};
ghost use Rattle.hamming.specs.Code.{checks_of};
ghost use Rattle.hamming_matrix.specs.Steps.{position_table};
ghost use Rattle.hamming_table.specs.Steps.{byte_table};
ghost use Rattle.hamming.specs.Repair.{repair_of};
ghost use Rattle.sizes.specs.Sizes.{info_bits, fec_bits, fec_blocks, super_bytes, info_length, parity_length, words, most_frames, word_bytes};
ghost use Rattle.line.specs.Frames.{info_of, parity_of};
ghost use Rattle.line.specs.Slots.{slot_of, holds};
ghost use Rattle.line_order.specs.Order.{word_in};
ghost use Rattle.line.specs.Words.{fec_in};
ghost use Rattle.read_spec.specs.Read.{repaired, all_zero, read_answer, read_leaves};
ghost use Rattle.read_spec.specs.Steps.{AcceptedRead, sequence, words_to, frame_of, followed, received_in, mbas_off, crc_off, pad_off};
ghost use Rattle.read_spec.specs.Steps.{block_taken, frames_to, info_in, parity_in, late_answer, late_leaves};

use answer::Refused;
use hamming::Repaired;
use read_spec::{BlockTally, WordTally};

// The scrambler's sequence of a super frame, and a byte more, so that none has to be tested.
const SEQUENCE_BYTES: usize = sizes::SUPER_BYTES + 1;

// The pad in whole bytes.
const PAD_BYTES: usize = (sizes::PAD_BITS + 7) / 8;

// Takes n super frames, whose FEC blocks count from m0 on, and a capture, and fills information and parity. The count is that of the
// words whose checks were not zero.
pub fn read(
    n: u64,
    m0: u64,
    capture: &[u8],
    info: &mut [u8],
    parity: &mut [u8],
) -> Result<u64, Refused>
    ensures { Outcome (read_answer n m0 capture.now info.old parity.old)
        (read_leaves n m0 capture.now info.old parity.old) (answered result) (info.new, parity.new) }
{
    read_spec::judge(
        n,
        m0,
        capture.len() as u64,
        info.len() as u64,
        parity.len() as u64,
    )?;
    read_accepted(n as usize, m0, capture, info, parity)
}

// The numbers and lengths are right. Tables are made once and lent; a constant one would be copied at every use.
fn read_accepted(
    n: usize,
    m0: u64,
    capture: &[u8],
    info: &mut [u8],
    parity: &mut [u8],
) -> Result<u64, Refused>
    requires { AcceptedRead n capture.now info.old parity.old }
    ensures { Outcome (late_answer n m0 capture.now) (late_leaves n m0 capture.now info.old parity.old) (answered result)
        (info.new, parity.new) }
{
    let table = hamming_table::byte_table();
    let positions = hamming_matrix::position_table();
    let crcs = crc::table();
    let mut scrambler = [0u8; SEQUENCE_BYTES];
    whole_sequence(&mut scrambler);
    let reader = Reader {
        n,
        m0,
        capture,
        table: &table,
        positions: &positions,
        crcs: &crcs,
        scrambler: &scrambler,
    };
    let mut buffer = blank();
    reader.read(&mut buffer, info, parity)
}

// What is added to the bytes of a super frame. It is made where it stands: handed out, it would be on the stack twice.
fn whole_sequence(out: &mut [u8; SEQUENCE_BYTES])
    ensures { out.new ≡ sequence }
{
    scrambler::fill(out);
}

// The bytes of one super frame.
type Frame = [u8; sizes::SUPER_BYTES];

// A place for them.
fn blank() -> Frame {
    [0u8; sizes::SUPER_BYTES]
}

// A capture of n super frames, whose FEC blocks count from m0 on, and the tables lent.
#[derive(Clone, Copy)]
struct Reader<'a> {
    n: usize,
    m0: u64,
    capture: &'a [u8],
    table: &'a [u16; 4096],
    positions: &'a [u8; 512],
    crcs: &'a [u32; 256],
    scrambler: &'a [u8],
    ghost few: { n ≤ most_frames },
    ghost sums: { table.now ≡ byte_table },
    ghost places: { positions.now ≡ position_table },
    ghost divides: { crcs.now ≡ entries },
    ghost scrambles: { scrambler.now ≡ sequence },
}

impl Reader<'_> {
    // Both passes, and the writing where nothing is wrong. The buffer is lent for one super frame at a time.
    fn read(&self, buffer: &mut Frame, info: &mut [u8], parity: &mut [u8]) -> Result<u64, Refused>
        requires { (length info.old ≡ info_length self.now.n) × (length parity.old ≡ parity_length self.now.n) }
        ensures { Outcome (late_answer self.now.n self.now.m0 self.now.capture.now)
            (late_leaves self.now.n self.now.m0 self.now.capture.now info.old parity.old) (answered result) (info.new, parity.new) }
    {
        let w = self.tally_words();
        let b = self.tally_frames(buffer);
        let seen = read_spec::verdict(w, b)?;
        self.write_frames(buffer, info, parity);
        Ok(seen)
    }

    // ---- words

    // The checks of word w.
    fn checks(&self, w: usize) -> u16
        ensures { result ≡ checks_of (word_in self.now.capture.now w) }
    {
        checks(self.table, self.capture, w)
    }

    // A word whose checks are c, repaired.
    fn repair(&self, word: [u8; 16], c: u16) -> Repaired
        requires { c ≡ checks_of word }
        ensures { result ≡ repair_of word }
    {
        hamming_table::repair_known(self.positions, word, c)
    }

    // Whether word w is filler, and not zero.
    fn is_filled(&self, w: usize, word: [u8; 16]) -> bool
        ensures { result ≡ (not (holds self.now.n w) && not (all_zero word)) }
    {
        !line::holds_element(self.n, w) && !all_zero(word)
    }

    // Word w is taken in. Where it holds an element and passes its checks there is nothing to find.
    fn take_word(&self, w: usize, s: WordTally) -> WordTally
        requires { (w < 2 ^ 32) × (s ≡ words_to self.now.n self.now.capture.now w) }
        ensures { result ≡ words_to self.now.n self.now.capture.now (w + 1) }
    {
        let c = self.checks(w);
        if c == 0 && line::holds_element(self.n, w) {
            return s;
        }
        let received = line_order::word_in(self.capture, w);
        let r = self.repair(received, c);
        // Kept: by number. Of `r.found == Found::Beyond` a proof here has no fact that it can open, and the contract was not proved.
        let is_beyond = r.found.number() == 4;
        WordTally {
            beyond: s.beyond.or(is_beyond.then_some(w as u64)),
            filler: s.filler.or(self.is_filled(w, r.word).then_some(w as u64)),
            seen: s.seen + u64::from(r.found.is_found()),
        }
    }

    // The pass over all words.
    fn tally_words(&self) -> WordTally
        ensures { result ≡ words_to self.now.n self.now.capture.now (words self.now.n) }
    {
        let mut s = WordTally {
            beyond: None,
            filler: None,
            seen: 0,
        };
        for w in 0..sizes::SUPER_ELEMENTS * self.n + sizes::LONGEST_WAIT {
            s = self.take_word(w, s);
        }
        s
    }

    // ---- super frames

    // The word of element e, repaired.
    fn element(&self, e: usize) -> [u8; 16]
        requires { e < 2 ^ 32 }
        ensures { result ≡ repaired self.now.capture.now (slot_of e) }
    {
        let w = line::slot(e as u32);
        let c = self.checks(w);
        let word = line_order::word_in(self.capture, w);
        if c == 0 {
            return word;
        }
        self.repair(word, c).word
    }

    // The bytes of super frame f as they were received. Element l has 119 bits: it begins l mod 8 bits before its first whole byte.
    fn received(&self, f: usize, out: &mut Frame)
        requires { f < 8 }
        ensures { out.new ≡ pack super_bytes (received_in (repaired self.now.capture.now) f) }
    {
        let mut here = self.element(sizes::SUPER_ELEMENTS * f);
        for l in 0..sizes::SUPER_ELEMENTS {
            let next = self.element(sizes::SUPER_ELEMENTS * f + (l + 1));
            let a = 15 * l - l / 8;
            let e = 15 * (l + 1) - (l + 1) / 8;
            put_bytes(from_bit(follow(here, next), l % 8), &mut out[a..e]);
            here = next;
        }
    }

    // The same, descrambled.
    fn frame(&self, f: usize, out: &mut Frame)
        requires { f < 8 }
        ensures { out.new ≡ frame_of self.now.capture.now f }
    {
        self.received(f, out);
        scrambling::add(self.scrambler, 0, out);
    }

    // Block b of super frame f, whose bytes are s, is taken in.
    // Kept: `f < 8` and `b < fec_blocks`, here and wherever f and b are, bound an index: a struct of one number would be opened at each use.
    fn take_block(&self, s: &[u8], f: usize, b: usize, x: BlockTally) -> BlockTally
        requires { (f < 8) × (b < fec_blocks) }
        ensures { result ≡ block_taken self.now.m0 s.now f b x }
    {
        let t = (sizes::FEC_BLOCKS * f + b) as u64;
        BlockTally {
            mbas: x.mbas.or(is_mbas_off(self.m0, s, t, b).then_some(t)),
            crc: x.crc.or(is_crc_off(self.crcs, s, b).then_some(t)),
            pad: x.pad,
        }
    }

    // The five blocks of super frame f.
    fn take_blocks(&self, s: &[u8], f: usize, x: BlockTally) -> BlockTally
        requires { f < 8 }
        ensures { result ≡ upto (block_taken self.now.m0 s.now f) x fec_blocks }
    {
        let mut y = x;
        for b in 0..sizes::FEC_BLOCKS {
            y = self.take_block(s, f, b, y);
        }
        y
    }

    // Super frame f is taken in; its bytes go into the buffer lent.
    fn take_frame(&self, f: usize, x: BlockTally, buffer: &mut Frame) -> BlockTally
        requires { (f < 8) × (x ≡ frames_to self.now.m0 self.now.capture.now f) }
        ensures { result ≡ frames_to self.now.m0 self.now.capture.now (f + 1) }
    {
        self.frame(f, buffer);
        let y = self.take_blocks(buffer, f, x);
        BlockTally {
            mbas: y.mbas,
            crc: y.crc,
            pad: y.pad.or(is_pad_off(buffer).then_some(f as u64)),
        }
    }

    // The pass over all super frames.
    fn tally_frames(&self, buffer: &mut Frame) -> BlockTally
        ensures { result ≡ frames_to self.now.m0 self.now.capture.now self.now.n }
    {
        let mut x = BlockTally {
            mbas: None,
            crc: None,
            pad: None,
        };
        for f in 0..self.n {
            x = self.take_frame(f, x, buffer);
        }
        x
    }

    // The information and the parity of all super frames, one after the other.
    // Kept: here, in write_blocks and in received the parts are cut by index. Over chunks_exact_mut no invariant can name what was written to
    // them (tried in the crate code, where groups are written), and an element's parts are of 14 and 15 bytes, which no chunks method cuts.
    fn write_frames(&self, buffer: &mut Frame, info: &mut [u8], parity: &mut [u8])
        requires { (length info.old ≡ info_length self.now.n) × (length parity.old ≡ parity_length self.now.n) }
        ensures { (info.new ≡ info_of self.now.n (fec_in (repaired self.now.capture.now)))
            × (parity.new ≡ parity_of self.now.n (fec_in (repaired self.now.capture.now))) }
    {
        for f in 0..self.n {
            let i = sizes::SUPER_INFO_BYTES * f;
            let p = sizes::SUPER_PARITY_BYTES * f;
            self.frame(f, buffer);
            write_blocks(
                buffer,
                &mut info[i..i + sizes::SUPER_INFO_BYTES],
                &mut parity[p..p + sizes::SUPER_PARITY_BYTES],
            );
        }
    }
}

// ---- the bytes of a word

// The checks of word w, by the lent table.
fn checks(table: &[u16; 4096], capture: &[u8], w: usize) -> u16
    requires { table.now ≡ byte_table }
    ensures { result ≡ checks_of (word_in capture.now w) }
{
    line_order::checks_in(table, capture, w)
}

fn all_zero(word: [u8; 16]) -> bool
    ensures { result ≡ all_zero word }
{
    word == [0; 16]
}

// The 119 bits of a, and then the first nine of b in place of the check bits: no byte of a super frame reaches further.
fn follow(a: [u8; 16], b: [u8; 16]) -> [u8; 16]
    ensures { result ≡ followed a b }
{
    let p = bits::wide(b[0]) * 2 + bits::wide(b[1]) / 128;
    hamming::join(a, p as u16)
}

// The bits of v from bit i on, and zeros: with a byte behind them none has to be tested.
fn from_bit(v: [u8; 16], i: usize) -> [u8; 16]
    requires { i < 8 }
    ensures { result ≡ pack word_bytes (from_index (bit_at v) i) }
{
    let mut w = [0u8; 17];
    w[..sizes::WORD_BYTES].copy_from_slice(&v);
    bits_copy::word_from(&w, i)
}

// The bytes that begin in an element: fourteen, and one more but for each eighth element. Twelve are copied at once: a processor waits
// where it loads bytes across the middle of a word that it has just stored.
fn put_bytes(v: [u8; 16], out: &mut [u8])
    requires { (14 ≤ length out.old) × (length out.old ≤ 15) }
    ensures { out.new ≡ tabulate (length out.old) (λ k. get_or v k 0) }
{
    out[..12].copy_from_slice(&v[..12]);
    out[12] = v[12];
    out[13] = v[13];
    if 14 < out.len() {
        out[14] = v[14];
    }
}

// ---- FEC blocks, out of the bytes of a super frame

// The 32 bits from bit at on.
fn long_from(s: &[u8], at: usize) -> u32
    requires { at < 2 ^ 32 }
    ensures { result ≡ num 32 (bit_at s.now) at }
{
    let w = bits_copy::word_from(s, at);
    u32::from_be_bytes([w[0], w[1], w[2], w[3]])
}

// Whether the MBAS of block b, which is block t of the capture, is another number than expected.
fn is_mbas_off(m0: u64, s: &[u8], t: u64, b: usize) -> bool
    requires { b < fec_blocks }
    ensures { result ≡ mbas_off m0 s.now t b }
{
    bits::byte_from(s, sizes::FEC_BITS * b + sizes::MBAS_FROM) / 4 != line::mbas(m0, t)
}

// The CRC of the information of block b.
fn block_crc(crcs: &[u32; 256], s: &[u8], b: usize) -> u32
    requires { (crcs.now ≡ entries) × (b < fec_blocks) }
    ensures { result ≡ crc_of info_bits (from_index (bit_at s.now) (fec_bits * b)) }
{
    let mut block = [0u8; sizes::INFO_BYTES];
    bits_copy::copy(s, sizes::FEC_BITS * b, &mut block);
    crc::crc(crcs, &block)
}

fn is_crc_off(crcs: &[u32; 256], s: &[u8], b: usize) -> bool
    requires { (crcs.now ≡ entries) × (b < fec_blocks) }
    ensures { result ≡ crc_off s.now b }
{
    long_from(s, sizes::FEC_BITS * b + sizes::INFO_BITS) != block_crc(crcs, s, b)
}

// Whether a pad bit is not zero. The last of its bytes reaches past the end, where there are zeros.
fn is_pad_off(s: &Frame) -> bool
    ensures { result ≡ pad_off s.now }
{
    let mut pad = [0u8; PAD_BYTES];
    bits_copy::copy(s, sizes::PAD_FROM, &mut pad);
    pad != [0; PAD_BYTES]
}

// The information and the parity of a super frame, out of its bytes.
fn write_blocks(s: &[u8], info: &mut [u8], parity: &mut [u8])
    requires { (length info.old ≡ info_length 1) × (length parity.old ≡ parity_length 1) }
    ensures { (info.new ≡ pack (info_length 1) (info_in s.now))
        × (parity.new ≡ pack (parity_length 1) (parity_in s.now)) }
{
    for b in 0..sizes::FEC_BLOCKS {
        let i = sizes::INFO_BYTES * b;
        let p = sizes::PARITY_BYTES * b;
        bits_copy::copy(s, sizes::FEC_BITS * b, &mut info[i..i + sizes::INFO_BYTES]);
        bits_copy::copy(
            s,
            sizes::FEC_BITS * b + sizes::PARITY_FROM,
            &mut parity[p..p + sizes::PARITY_BYTES],
        );
    }
}
