// What bench/scrambler.c times: the scrambler alone, under a C name. It is no part of the library.
#![tactic(auto)]

ghost use Rattle.std.specs.Prelude.{◌≡◌, ◌+◌, length};
ghost use Rattle.sizes.specs.Sizes.{super_bytes};
ghost use Rattle.prelude.specs.Lists.{tabulate, from_index};
ghost use Rattle.bits.specs.Bits.{bit_at, pack};
ghost use Rattle.scrambler.specs.Scrambler.{o};
ghost use Rattle.scrambling.specs.Steps.{added_byte};

// The sequence of a super frame, and a byte more, so that none has to be tested.
const SEQUENCE_BYTES: usize = sizes::SUPER_BYTES + 1;

fn frame_sequence() -> [u8; SEQUENCE_BYTES]
    ensures { result ≡ pack (super_bytes + 1) o }
{
    let mut sequence = [0u8; SEQUENCE_BYTES];
    scrambler::fill(&mut sequence);
    sequence
}

// Makes the sequence of a super frame and adds it to the bytes.
#[unsafe(no_mangle)]
pub extern "C" fn bench_scramble(bytes: &mut [u8])
    ensures { bytes.new ≡ tabulate (length bytes.old) (added_byte bytes.old (from_index (bit_at (pack (super_bytes + 1) o)) 0)) }
{
    scrambling::add(&frame_sequence(), 0, bytes);
}
