// Captures: the entry points. Each takes any bytes and any numbers and refuses by document 01's table.
#![tactic(auto)]

ghost use Rattle.std.specs.Prelude.{◌≡◌};
ghost use Rattle.answer.specs.Outcomes.{Outcome};
ghost use Rattle.answer.specs.Refusals.{answered};
ghost use Rattle.code.specs.Code.{code_answer, code_leaves};
ghost use Rattle.read_spec.specs.Read.{read_answer, read_leaves};
ghost use Rattle.edit_spec.specs.Edit.{edit_answer, edit_leaves};
ghost use Rattle.capture.specs.Part.{part_answer, part_of};

use answer::{Refusal, Refused};

// The information of FEC block t of n super frames: that part of `info` itself, or the empty part where the request is refused.
pub fn information(n: u64, t: u64, info: &[u8]) -> &[u8]
    ensures { result.now ≡ part_of n t info.now }
{
    match information_answer(n, t, info) {
        Ok(_) => {
            let from = sizes::INFO_BYTES * (t as usize);
            &info[from..from + sizes::INFO_BYTES]
        }
        Err(_) => &[],
    }
}

// The second question on the same numbers and the same buffer: why the part is empty, or that it is not.
pub fn information_answer(n: u64, t: u64, info: &[u8]) -> Result<u64, Refused>
    ensures { answered result ≡ part_answer n t info.now }
{
    if !line::one_of(n, sizes::FEC_BLOCKS as u32, t) {
        return Err(Refusal::OutsideSet.at(0));
    }
    let stated = sizes::SUPER_INFO_BYTES as u64 * n;
    answer::refuse_length(1, info.len() as u64, stated)?;
    Ok(0)
}

// Codes n super frames whose FEC blocks count from m0 on. The count is the number of words written.
pub fn code(n: u64, m0: u64, info: &[u8], parity: &[u8], capture: &mut [u8]) -> Result<u64, Refused>
    ensures { Outcome (code_answer n m0 info.now parity.now capture.old)
        (code_leaves n m0 info.now parity.now capture.old) (answered result) capture.new }
{
    code::code(n, m0, info, parity, capture)
}

// Reads n super frames back. The count is the number of words whose nine checks were not zero.
pub fn read(
    n: u64,
    m0: u64,
    capture: &[u8],
    info: &mut [u8],
    parity: &mut [u8],
) -> Result<u64, Refused>
    ensures { Outcome (read_answer n m0 capture.now info.old parity.old)
        (read_leaves n m0 capture.now info.old parity.old) (answered result) (info.new, parity.new) }
{
    read::read(n, m0, capture, info, parity)
}

// Replaces a client block and the parity of its FEC block. The count is the number of words listed.
pub fn edit(
    n: u64,
    block: u64,
    bits: &[u8],
    parity: &[u8],
    capture: &mut [u8],
    list: &mut [u64],
) -> Result<u64, Refused>
    ensures { Outcome (edit_answer n block bits.now parity.now capture.old list.old)
        (edit_leaves n block bits.now parity.now capture.old list.old) (answered result) (capture.new, list.new) }
{
    edit::edit(n, block, bits, parity, capture, list)
}
