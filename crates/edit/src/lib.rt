// Editing a capture: one client block and the parity of its FEC block replaced in place, and the words listed that hold them.
#![tactic(auto)]

ghost use Rattle.std.specs.Prelude.{◌≡◌, not, eqb, ◌+◌, ◌*◌, ◌/◌, ◌-◌, ◌%◌, ◌≤◌, ◌<◌, length};
ghost use Rattle.prelude.specs.Lists.{from_index};
ghost use Rattle.bits.specs.Bits.{bit_at, pack};
ghost use Rattle.answer.specs.Outcomes.{Outcome};
ghost use Rattle.answer.specs.Rows.{answer_of};
ghost use Rattle.answer.specs.Refusals.{answered};
ghost use Rattle.answer.specs.Steps.{first_found};
ghost use Rattle.hamming.specs.Code.{checks_of};
ghost use Rattle.hamming_matrix.specs.Steps.{tail_table};
ghost use Rattle.hamming_table.specs.Steps.{byte_table};
ghost use Rattle.crc.specs.Remainder.{rem_from};
ghost use Rattle.crc.specs.Crc.{width, poly};
ghost use Rattle.scrambling.specs.Steps.{Agree, one_period};
ghost use Rattle.sizes.specs.Sizes.{block_bits, fec_bits, fec_blocks, element_bits, super_elements, fec_elements, capture_length, words, blocks_of};
ghost use Rattle.sizes.specs.Sizes.{parity_from, list_length, most_frames, word_bytes, info_elements, longest_wait};
ghost use Rattle.line_order.specs.Order.{word_in};
ghost use Rattle.line.specs.Words.{fec_in};
ghost use Rattle.edit_spec.specs.Edit.{fec_of, block_from, change, crc_change, element_fec, element_local, listed, fails, client_spare_set, edit_early_rows, edit_answer};
ghost use Rattle.edit_spec.specs.Edit.{edit_leaves};
ghost use Rattle.edit_spec.specs.Steps.{AcceptedEdit, first_element, stretch_to, new_element, field_element, with_field, crc_bit, with_crc, remade};
ghost use Rattle.edit_spec.specs.Steps.{FirstIn, OwnWords, Begun, Passing, PassedOn, WordPassed};

use answer::{Refusal, Refused};
use std::ops::Range;

// The last bit of a client block.
const BLOCK_LAST: usize = sizes::BLOCK_BITS - 1;

// From the first element of an FEC block on, so many words can hold one of its elements.
const STRETCH: usize = sizes::FEC_ELEMENTS + sizes::LONGEST_WAIT;

// Replaces client block `block` of a capture of n super frames by the 257 bits of `bits` and its FEC block's parity by `parity`, changes the
// CRC by what the changed bits leave, and lists the words that hold any of these. The count is how many were listed.
// Kept: numbers and buffers one by one, here and where they are judged, and a list with a count beside it: so C hands them over, and the clause speaks of each.
pub fn edit(
    n: u64,
    block: u64,
    bits: &[u8],
    parity: &[u8],
    capture: &mut [u8],
    list: &mut [u64],
) -> Result<u64, Refused>
    ensures { Outcome (edit_answer n block bits.now parity.now capture.old list.old)
        (edit_leaves n block bits.now parity.now capture.old list.old) (answered result) (capture.new, list.new) }
{
    judge(
        n,
        block,
        bits.len() as u64,
        parity.len() as u64,
        capture.len() as u64,
        list.len() as u64,
        spare_set(bits),
    )?;
    edit_checked(n as usize, block as usize, bits, parity, capture, list)
}

// Numbers 1 to 3, from the numbers, the buffers' lengths and whether a spare bit is set.
fn judge(
    n: u64,
    block: u64,
    bits: u64,
    parity: u64,
    capture: u64,
    list: u64,
    spare: bool,
) -> Result<u64, Refused>
    ensures { answered result ≡ answer_of (edit_early_rows n block bits parity capture list spare) 0 }
{
    if !line::one_of(n, sizes::SUPER_CLIENT_BLOCKS as u32, block) {
        return Err(Refusal::OutsideSet.at(0));
    }
    let capture_bytes = sizes::SUPER_CAPTURE_BYTES as u64 * n + sizes::FILLER_BYTES as u64;
    answer::refuse_length(1, bits, sizes::BLOCK_BYTES as u64)?;
    answer::refuse_length(2, parity, sizes::PARITY_BYTES as u64)?;
    answer::refuse_length(3, capture, capture_bytes)?;
    answer::refuse_length(4, list, sizes::LIST_LENGTH as u64)?;
    answer::refuse_when(spare, Refusal::SpareBit, answer::buffer_place(1))?;
    Ok(0)
}

// Whether one of the seven spare bits behind the 257 is set.
fn spare_set(bits: &[u8]) -> bool
    ensures { result ≡ client_spare_set bits.now }
{
    bits::byte_at(bits, 32) % 128 != 0
}

// ---- which words are listed

// Client block `number` of a capture of so many super frames.
#[derive(Clone, Copy)]
struct Block {
    frames: usize,
    number: usize,
    ghost few: { frames ≤ most_frames },
    ghost held: { number < blocks_of frames },
}

impl Block {
    // The first element of its FEC block.
    fn first_element(self) -> usize
        ensures { result ≡ first_element self.number }
    {
        let fec_block = self.number / sizes::CLIENT_BLOCKS;
        sizes::SUPER_ELEMENTS * (fec_block / sizes::FEC_BLOCKS)
            + sizes::FEC_ELEMENTS * (fec_block % sizes::FEC_BLOCKS)
    }

    // The first of its bits within its FEC block.
    fn first_bit(self) -> usize
        ensures { result ≡ block_from self.number }
    {
        sizes::BLOCK_BITS * (self.number % sizes::CLIENT_BLOCKS)
    }

    // The elements of the FEC block that hold its bits, counted from the FEC block's first.
    fn own_elements(self) -> Range<usize>
        ensures start { result.start ≡ block_from self.number / element_bits }
        ensures end { result.end ≡ (block_from self.number + (block_bits - 1)) / element_bits + 1 }
    {
        let from = self.first_bit();
        from / sizes::ELEMENT_BITS..(from + BLOCK_LAST) / sizes::ELEMENT_BITS + 1
    }

    // Whether word w is listed: it holds a bit of the CRC or the parity, as the FEC block's elements do from the 2,057th on, or one of the
    // client block itself. Most words hold nothing that is touched, so that is asked before whether they are filler.
    fn is_listed(self, w: usize) -> bool
        ensures { result ≡ listed self.frames self.number w }
    {
        let e = line::element_in(w);
        let first = self.first_element();
        let own = self.own_elements();
        let tail = first + sizes::INFO_ELEMENTS..first + sizes::FEC_ELEMENTS;
        (tail.contains(&e) || (first + own.start..first + own.end).contains(&e))
            && line::holds_element(self.frames, w)
    }

    // The words that can hold one of its own elements: from the first of them on, and none waits longer than 480 words. They end where
    // those of CRC and parity begin.
    fn own_words(self) -> Range<usize>
        ensures { OwnWords self.number result.start result.end }
    {
        let first = self.first_element();
        let own = self.own_elements();
        first + own.start..first + sizes::INFO_ELEMENTS.min(own.end + sizes::LONGEST_WAIT)
    }

    // The words behind them that can hold an element of CRC or parity.
    fn tail_words(self) -> Range<usize>
        ensures start { result.start ≡ first_element self.number + info_elements }
        ensures end { result.end ≡ stretch_to self.number }
    {
        let first = self.first_element();
        first + sizes::INFO_ELEMENTS..first + STRETCH
    }

    // ---- number 9

    // Whether word w is to be listed and fails a check.
    fn fails(self, checks: Checks<'_>, capture: &[u8], w: usize) -> bool
        ensures { result ≡ fails self.frames self.number capture.now w }
    {
        self.is_listed(w) && checks.fail(capture, w)
    }

    // The first such word of a stretch.
    fn refused_in(
        self,
        mut stretch: Range<usize>,
        checks: Checks<'_>,
        capture: &[u8],
    ) -> Option<usize>
        ensures { FirstIn (fails self.frames self.number capture.now) stretch.start stretch.end result }
    {
        stretch.find(|w| self.fails(checks, capture, *w))
    }

    // The first such word of the capture.
    fn first_refused(self, checks: Checks<'_>, capture: &[u8]) -> Option<usize>
        ensures { result ≡ first_found (fails self.frames self.number capture.now) (words self.frames) }
    {
        match self.refused_in(self.own_words(), checks, capture) {
            Some(w) => Some(w),
            None => self.refused_in(self.tail_words(), checks, capture),
        }
    }
}

// The lent table by which a word is checked.
#[derive(Clone, Copy)]
struct Checks<'a> {
    table: &'a [u16; 4096],
    ghost right: { table.now ≡ byte_table },
}

impl Checks<'_> {
    // Whether word w has checks that are not zero.
    fn fail(self, capture: &[u8], w: usize) -> bool
        ensures { result ≡ not (eqb (checks_of (word_in capture.now w)) 0) }
    {
        line_order::checks_in(self.table, capture, w) != 0
    }
}

// ---- what is put in, eight bits at a time

// The client block and the parity that are put in; and what is made once and lent: one period of the scrambler's sequence, and the code's
// two tables.
#[derive(Drop)]
struct Changes<'a> {
    block: Block,
    bits: &'a [u8],
    parity: &'a [u8],
    scr: &'a [u8; scrambling::PERIOD_BYTES],
    checks: Checks<'a>,
    tails: &'a [u16; 512],
    ghost sequence: { scr.now ≡ one_period },
    ghost closing: { tails.now ≡ tail_table },
}

impl Changes<'_> {
    // Element e, scrambled, of a field that begins at place a of the FEC block.
    fn field_element(&self, field: &[u8], a: usize, e: usize) -> [u8; 16]
        ensures { result ≡ pack word_bytes (field_element a field.now e) }
    {
        let q = sizes::ELEMENT_BITS * local_number(e);
        scrambling::element(self.scr, e, bits_place::placed(field, a, q))
    }

    // The received word old of element e, with the field in the places a .. z - 1 of the FEC block.
    fn with_field(&self, field: &[u8], a: usize, z: usize, e: usize, old: [u8; 16]) -> [u8; 16]
        ensures { result ≡ pack word_bytes (with_field a z field.now e old) }
    {
        let q = sizes::ELEMENT_BITS * local_number(e);
        bits_place::under(a, z, q as u32, self.field_element(field, a, e), old)
    }

    // An element of the information, with the client block.
    fn block_element(&self, e: usize, old: [u8; 16]) -> [u8; 16]
        ensures { result ≡ pack word_bytes (with_field (block_from self.now.block.number) (block_from self.now.block.number + block_bits) self.now.bits.now e old) }
    {
        let from = self.block.first_bit();
        self.with_field(self.bits, from, from + sizes::BLOCK_BITS, e, old)
    }

    // ---- the change of the CRC

    // The 119 bits by which an element of the client block's FEC block changes: the scrambler falls out.
    fn changed_element(&self, capture: &[u8], e: usize) -> [u8; 16]
        requires { (e < super_elements * most_frames) × (e % super_elements < fec_elements * fec_blocks) × (element_fec e ≡ fec_of self.now.block.number) }
        ensures { Agree (bit_at result) (from_index (change self.now.block.number self.now.bits.now (fec_in (word_in capture.now) (fec_of self.now.block.number))) (element_bits * element_local e)) }
    {
        let old = line_order::word_in(capture, line::slot(e as u32));
        bits_copy::sum(old, self.block_element(e, old))
    }

    // What the changed bits leave: the change of the CRC. In the elements that hold the block nothing else changes; what follows them only shifts.
    fn crc_change(&self, capture: &[u8]) -> u32
        ensures { result ≡ crc_change self.now.block.number self.now.bits.now (fec_in (word_in capture.now) (fec_of self.now.block.number)) }
    {
        let first = self.block.first_element();
        let own = self.block.own_elements();
        let end = own.end;
        let mut r: u32 = 0;
        for m in own.start..end {
            r = take_element(r, self.changed_element(capture, first + m));
        }
        crc::shifted(r, (sizes::INFO_BITS - sizes::ELEMENT_BITS * end) as u64)
    }

    // ---- a word made anew

    // The element of CRC and MBAS: the CRC changes, the MBAS stays, and the parity begins.
    fn tail_element(&self, crc: u32, e: usize, old: [u8; 16]) -> [u8; 16]
        ensures { result ≡ pack word_bytes (with_field parity_from fec_bits self.now.parity.now e (with_crc crc old)) }
    {
        self.with_field(
            self.parity,
            sizes::PARITY_FROM,
            sizes::FEC_BITS,
            e,
            bits_copy::sum(old, crc_word(crc)),
        )
    }

    // Element e of word w made anew: one of the information, that of CRC and MBAS, or one that is all parity, of which nothing stays.
    fn new_element(&self, crc: u32, capture: &[u8], w: usize, e: usize) -> [u8; 16]
        ensures { Agree (bit_at result) (new_element self.now.block.number self.now.bits.now self.now.parity.now crc e (word_in capture.now w)) }
    {
        let m = local_number(e);
        if sizes::INFO_ELEMENTS < m {
            return self.field_element(self.parity, sizes::PARITY_FROM, e);
        }
        let old = line_order::word_in(capture, w);
        if m < sizes::INFO_ELEMENTS {
            return self.block_element(e, old);
        }
        self.tail_element(crc, e, old)
    }

    // Word w made anew.
    fn new_word(&self, crc: u32, capture: &[u8], w: usize) -> [u8; 16]
        ensures { result ≡ remade self.now.block.number self.now.bits.now self.now.parity.now crc w (word_in capture.now w) }
    {
        let v = self.new_element(crc, capture, w, line::element_in(w));
        hamming_table::encode_by(self.checks.table, self.tails, v)
    }

    // ---- the pass

    // `block` is the client block again, by value: where its words are is then computed once for a stretch.
    // Word w, if it is listed, is made anew and becomes entry c of the list. Returns how many are listed now.
    fn pass_word(
        &self,
        block: Block,
        crc: u32,
        w: usize,
        c: usize,
        capture: &mut [u8],
        list: &mut [u64],
    ) -> usize
        requires { (block ≡ self.now.block) × (w < words self.now.block.frames) × (length capture.old ≡ capture_length self.now.block.frames) × (c < length list.old) }
        ensures { WordPassed self.now.block.frames self.now.block.number self.now.bits.now self.now.parity.now crc w c capture.old list.old capture.new list.new result }
    {
        if block.is_listed(w) {
            let v = self.new_word(crc, capture, w);
            line_order::put_word(capture, w, v);
            list[c] = w as u64;
            return c + 1;
        }
        c
    }

    // Kept: loops over numbers here and in `crc_change`. The words of a capture are interleaved: one is taken and put by its number, from no slice.
    // The words of a stretch in their order, where `listed` words are listed before them. Returns how many are then.
    fn rewrite(
        &self,
        crc: u32,
        stretch: Range<usize>,
        listed: usize,
        capture: &mut [u8],
        list: &mut [u64],
    ) -> usize
        requires { (stretch.start ≤ stretch.end) × (stretch.end ≤ words self.now.block.frames) × Begun self.now.block.frames self.now.block.number self.now.bits.now self.now.parity.now crc stretch.start capture.old list.old listed }
        ensures { PassedOn self.now.block.frames self.now.block.number self.now.bits.now self.now.parity.now crc stretch.start stretch.end capture.old list.old listed capture.new list.new result }
    {
        let block = self.block;
        let mut c = listed;
        for w in stretch.start..stretch.end {
            c = self.pass_word(block, crc, w, c, capture, list);
        }
        c
    }
}

// The number of element e within its FEC block.
fn local_number(e: usize) -> usize
    ensures { result ≡ element_local e }
{
    e % sizes::SUPER_ELEMENTS % sizes::FEC_ELEMENTS
}

// The remainder r takes in the 119 bits of an element.
// Kept: a loop over numbers. A bit is found by its number, and there is no slice of them; a fold over 0..119 would call `crc::take` on the same two.
fn take_element(r: u32, v: [u8; 16]) -> u32
    ensures { result ≡ rem_from width poly r (bit_at v) element_bits }
{
    let mut x = r;
    for i in 0..sizes::ELEMENT_BITS {
        x = crc::take(x, bits::bit_at(&v, i));
    }
    x
}

// The CRC's change at the head of a word, and zeros.
fn crc_word(crc: u32) -> [u8; 16]
    ensures { result ≡ pack word_bytes (crc_bit crc) }
{
    let mut r = [0u8; 16];
    r[..4].copy_from_slice(&crc.to_be_bytes());
    r
}

// What is made once, and then the pass. The change of the CRC is taken before the first word is written.
fn replace(
    block: Block,
    bits: &[u8],
    parity: &[u8],
    checks: Checks<'_>,
    capture: &mut [u8],
    list: &mut [u64],
) -> usize
    requires { AcceptedEdit block.frames block.number bits.now parity.now capture.old list.old }
    ensures { Passing block.frames block.number bits.now parity.now capture.old list.old (words block.frames) capture.new list.new result }
{
    let mut scr = [0u8; scrambling::PERIOD_BYTES];
    scrambler::fill(&mut scr);
    let tails = hamming_matrix::tail_table();
    let changes = Changes {
        block,
        bits,
        parity,
        scr: &scr,
        checks,
        tails: &tails,
    };
    let crc = changes.crc_change(capture);
    let own = changes.rewrite(crc, block.own_words(), 0, capture, list);
    changes.rewrite(crc, block.tail_words(), own, capture, list)
}

// The edit of a call that none of the numbers 1 to 3 refuses.
fn edit_checked(
    n: usize,
    b: usize,
    bits: &[u8],
    parity: &[u8],
    capture: &mut [u8],
    list: &mut [u64],
) -> Result<u64, Refused>
    requires { AcceptedEdit n b bits.now parity.now capture.old list.old }
    ensures { Outcome (edit_answer n b bits.now parity.now capture.old list.old)
        (edit_leaves n b bits.now parity.now capture.old list.old) (answered result) (capture.new, list.new) }
{
    let table = hamming_table::byte_table();
    let checks = Checks { table: &table };
    let block = Block {
        frames: n,
        number: b,
    };
    match block.first_refused(checks, capture) {
        Some(w) => Err(Refusal::ListedFails.at(w as u64)),
        None => Ok(replace(block, bits, parity, checks, capture, list) as u64),
    }
}
