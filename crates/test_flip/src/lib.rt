// Flips in a capture, for the programs: bits of a word are flipped. Flipped once more they are as they were.
#![tactic(auto)]

ghost use Rattle.std.specs.Prelude.{◌≡◌};
ghost use Rattle.test_flip.specs.Flipped.{flipped_word, bit_alone, flipped_in_all};

// Flips in word w of a capture the bits that v has. Past the end of the capture nothing is flipped.
pub fn flip(capture: &mut [u8], w: usize, v: [u8; 16])
    ensures { capture.new ≡ flipped_word w v capture.old }
{
    line_order::put_word(
        capture,
        w,
        bits_copy::sum(line_order::word_in(capture, w), v),
    );
}

// The word that has bit i only, and none where i is not one of the 128.
pub fn bit(i: usize) -> [u8; 16]
    ensures { result ≡ bit_alone i }
{
    let mut v = [0u8; 16];
    if i < sizes::WORD_BITS {
        v[i / 8] = 128 >> (i % 8);
    }
    v
}

// Flips one bit of each word, filler too: bit 37·w + 11, modulo 128, of word w.
pub fn flip_in_all(capture: &mut [u8])
    ensures { capture.new ≡ flipped_in_all capture.old }
{
    // Kept: a word's bytes stand apart in a capture, so a word is named by its number `w`; there is no slice of words to go through.
    for w in 0..capture.len() / sizes::WORD_BYTES {
        flip(capture, w, bit((w % 128 * 37 + 11) % 128));
    }
}
