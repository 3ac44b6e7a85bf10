// The order of the bytes of a capture: where a symbol of a word stands, a word taken out, a word put in, eight words interleaved. Every
// function takes any capture and any word: past the end there are zeros, and nothing is written.
#![tactic(auto)]

ghost use Rattle.std.specs.Prelude.{ℕ, ◌≡◌, ◌/◌, ◌^◌, ◌<◌, ◌≤◌, length, set, MatchOption};
ghost use Rattle.sizes.specs.Sizes.{word_bytes, group_words, group_size};
ghost use Rattle.hamming_table.specs.Steps.{sum_by_tables};
ghost use Rattle.line_order.specs.Order.{symbol_place, symbol_by, word_in, the_line_order};
ghost use Rattle.line_order.specs.Steps.{put_word, laid_group, taken_group};

// Where symbol k of word j of a group stands in the group: the one place where the order is written out.
fn in_group(j: usize, k: usize) -> usize
    requires { (j < group_words) × (k < 2 ^ 32) }
    ensures { result ≡ symbol_place j k }
{
    sizes::GROUP_WORDS * k + j
}

// Where symbol k of word w stands in a capture.
pub fn place(w: u32, k: u32) -> usize
    ensures { result ≡ symbol_place w k }
{
    let group = sizes::GROUP_BYTES * (w as usize / sizes::GROUP_WORDS);
    group + in_group(w as usize % sizes::GROUP_WORDS, k as usize)
}

// The same in a capture of so many bytes, if it is not past them. No sum here can overflow, however large w is.
fn place_below(bytes: usize, w: usize, k: usize) -> Option<usize>
    requires { k < word_bytes }
    ensures { MatchOption result (bytes ≤ symbol_place w k) (λ at. (at ≡ symbol_place w k) × (at < bytes)) }
{
    let g = w / sizes::GROUP_WORDS;
    if bytes / sizes::GROUP_BYTES < g {
        return None;
    }
    let group = sizes::GROUP_BYTES * g;
    let at = in_group(w % sizes::GROUP_WORDS, k);
    if bytes - group <= at {
        return None;
    }
    Some(group + at)
}

// ---- a word taken out

// The sixteen bytes of word w, out of the symbols that `symbol` gives.
fn word_by<F: Fn(usize) -> u8>(symbol: F, capture: &[u8], w: usize) -> [u8; 16]
    requires may { (k : ℕ) → k < word_bytes → F.pre symbol k }
    requires gives { (k : ℕ) (x : _) → k < word_bytes → F.post symbol k x → x ≡ symbol_by the_line_order capture.now w k }
    ensures { result ≡ word_in capture.now w }
{
    let mut r = [0u8; 16];
    for (k, x) in r.iter_mut().enumerate() {
        *x = symbol(k);
    }
    r
}

// Symbol k of word w where the capture has the whole of the word's group: no byte is tested.
// Kept: that the group is there is required of capture and w together, here and in `checks_inside`, and of a capture lent to be written in `put_inside`:
// one struct could not lend both. `k < word_bytes` is the bound of an index.
fn symbol_inside(capture: &[u8], w: usize, k: usize) -> u8
    requires { (w / group_words < length capture.now / group_size) × (k < word_bytes) }
    ensures { result ≡ symbol_by the_line_order capture.now w k }
{
    let group = sizes::GROUP_BYTES * (w / sizes::GROUP_WORDS);
    capture[group + in_group(w % sizes::GROUP_WORDS, k)]
}

// Symbol k of word w; 0 past the end.
fn symbol_tested(capture: &[u8], w: usize, k: usize) -> u8
    requires { k < word_bytes }
    ensures { result ≡ symbol_by the_line_order capture.now w k }
{
    match place_below(capture.len(), w, k) {
        Some(at) => capture[at],
        None => 0,
    }
}

// The sixteen bytes of word w where the capture has the whole of its group.
fn word_inside(capture: &[u8], w: usize) -> [u8; 16]
    requires { w / group_words < length capture.now / group_size }
    ensures { result ≡ word_in capture.now w }
{
    word_by(|k| symbol_inside(capture, w, k), capture, w)
}

// The sixteen bytes of word w of a capture; zeros past the end.
pub fn word_in(capture: &[u8], w: usize) -> [u8; 16]
    ensures { result ≡ word_in capture.now w }
{
    if w / sizes::GROUP_WORDS < capture.len() / sizes::GROUP_BYTES {
        word_inside(capture, w)
    } else {
        word_by(|k| symbol_tested(capture, w, k), capture, w)
    }
}

// The checks of word w where the capture has the whole of its group.
// Kept: the loop of `hamming_table::checks_by` over symbols that stand eight bytes apart: that one takes a word, which this spares making.
fn checks_inside(t: &[u16; 4096], capture: &[u8], w: usize) -> u16
    requires { w / group_words < length capture.now / group_size }
    ensures { result ≡ sum_by_tables t.now (word_in capture.now w) }
{
    let mut sum = 0u16;
    for k in 0..sizes::WORD_BYTES {
        sum ^= t[256 * k + usize::from(symbol_inside(capture, w, k))];
    }
    sum
}

// The nine checks of word w of a capture, by the lent table of `hamming_table::byte_table`: a word that passes need not be put together.
pub fn checks_in(t: &[u16; 4096], capture: &[u8], w: usize) -> u16
    ensures { result ≡ sum_by_tables t.now (word_in capture.now w) }
{
    if w / sizes::GROUP_WORDS < capture.len() / sizes::GROUP_BYTES {
        checks_inside(t, capture, w)
    } else {
        hamming_table::checks_by(t, word_in(capture, w))
    }
}

// ---- a word put in

// Puts the sixteen symbols of word w to their places where the capture has the whole of its group.
// Kept: beside `put_tested`. One loop over a closure that gives places would take two functions more, a place inside as a `Some` and a byte
// put to an `Option` of a place, to spare one of these two loops of one line.
fn put_inside(capture: &mut [u8], w: usize, v: [u8; 16])
    requires { w / group_words < length capture.old / group_size }
    ensures { capture.new ≡ put_word capture.old w v }
{
    let group = sizes::GROUP_BYTES * (w / sizes::GROUP_WORDS);
    let j = w % sizes::GROUP_WORDS;
    for (s, x) in v.iter().enumerate() {
        capture[group + in_group(j, s)] = *x;
    }
}

// Puts x to the place of symbol k of word w, if the capture has it.
fn put_symbol(capture: &mut [u8], w: usize, k: usize, x: u8)
    requires { k < word_bytes }
    ensures { capture.new ≡ set capture.old (symbol_place w k) x }
{
    if let Some(at) = place_below(capture.len(), w, k) {
        capture[at] = x;
    }
}

// The sixteen symbols anywhere.
fn put_tested(capture: &mut [u8], w: usize, v: [u8; 16])
    ensures { capture.new ≡ put_word capture.old w v }
{
    for (k, x) in v.iter().enumerate() {
        put_symbol(capture, w, k, *x);
    }
}

// Puts the sixteen symbols of word w to their places; past the end nothing changes.
pub fn put_word(capture: &mut [u8], w: usize, v: [u8; 16])
    ensures { capture.new ≡ put_word capture.old w v }
{
    if w / sizes::GROUP_WORDS < capture.len() / sizes::GROUP_BYTES {
        put_inside(capture, w, v);
    } else {
        put_tested(capture, w, v);
    }
}

// ---- eight words

// The 128 bytes of eight words: a capture of these alone.
pub fn interleave(words: [[u8; 16]; 8]) -> [u8; 128]
    ensures { result ≡ laid_group words }
{
    let mut out = [0u8; 128];
    for (w, word) in words.iter().enumerate() {
        put_inside(&mut out, w, *word);
    }
    out
}

// The eight words of a group.
pub fn deinterleave(s: [u8; 128]) -> [[u8; 16]; 8]
    ensures { result ≡ taken_group s }
{
    let mut words = [[0u8; 16]; 8];
    for (w, word) in words.iter_mut().enumerate() {
        *word = word_inside(&s, w);
    }
    words
}
