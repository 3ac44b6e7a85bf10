// What reading means: definitions and their laws, and the answer before anything is read and after all is.
#![tactic(auto)]

ghost use Rattle.std.specs.Prelude.{◌≡◌};
ghost use Rattle.answer.specs.Refusals.{answered};
ghost use Rattle.answer.specs.Rows.{answer_of};
ghost use Rattle.read_spec.specs.Read.{read_early_rows};
ghost use Rattle.read_spec.specs.Steps.{verdict_of};

use answer::{Refusal, Refused};

// What the pass over the words found: the first word beyond repair, the first filler word that is not zero, and how many words had checks
// that were not zero.
#[derive(Clone, Copy, Debug, PartialEq, Eq)]
pub struct WordTally {
    pub beyond: Option<u64>,
    pub filler: Option<u64>,
    pub seen: u64,
}

// What the pass over the super frames found: the first FEC block whose MBAS, and whose CRC, is wrong, and the first super frame whose pad
// is not zero.
#[derive(Clone, Copy, Debug, PartialEq, Eq)]
pub struct BlockTally {
    pub mbas: Option<u64>,
    pub crc: Option<u64>,
    pub pad: Option<u64>,
}

// Numbers 1 and 2, before anything is read.
pub fn judge(
    n: u64,
    m0: u64,
    capture_len: u64,
    info_len: u64,
    parity_len: u64,
) -> Result<u64, Refused>
    ensures { answered result ≡ answer_of (read_early_rows n m0 capture_len info_len parity_len) 0 }
{
    if !line::numbers_allowed(n, m0) {
        return Err(Refusal::OutsideSet.at(0));
    }
    let capture_bytes = sizes::SUPER_CAPTURE_BYTES as u64 * n + sizes::FILLER_BYTES as u64;
    answer::refuse_length(1, capture_len, capture_bytes)?;
    answer::refuse_length(2, info_len, sizes::SUPER_INFO_BYTES as u64 * n)?;
    answer::refuse_length(3, parity_len, sizes::SUPER_PARITY_BYTES as u64 * n)?;
    Ok(0)
}

// The smallest number that applies, at its first place.
pub fn verdict(w: WordTally, b: BlockTally) -> Result<u64, Refused>
    ensures { answered result ≡ verdict_of w b }
{
    answer::refuse_at(Refusal::BeyondRepair, w.beyond)?;
    answer::refuse_at(Refusal::FillerNotZero, w.filler)?;
    answer::refuse_at(Refusal::WrongMbas, b.mbas)?;
    answer::refuse_at(Refusal::WrongCrc, b.crc)?;
    answer::refuse_at(Refusal::PadNotZero, b.pad)?;
    Ok(w.seen)
}
