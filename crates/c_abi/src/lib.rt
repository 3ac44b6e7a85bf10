// The coder for C and whatever calls C: each entry point under its C name, with the callee's own promise. `hosts/c/zr400.h` declares them.
#![tactic(auto)]

ghost use Rattle.std.specs.Prelude.{◌≡◌, length};
ghost use Rattle.answer.specs.Outcomes.{Outcome};
ghost use Rattle.gmp.specs.Places.{kind_number};
ghost use Rattle.gmp.specs.Answers.{told, run_of, runs_of};
ghost use Rattle.gmp_map.specs.Groups.{Mapped, Unmapped};
ghost use Rattle.code.specs.Code.{code_answer, code_leaves};
ghost use Rattle.read_spec.specs.Read.{read_answer, read_leaves};
ghost use Rattle.edit_spec.specs.Edit.{edit_answer, edit_leaves};
ghost use Rattle.capture.specs.Part.{part_answer};
ghost use Rattle.archive_spec.specs.Write.{write_answer, write_leaves};
ghost use Rattle.archive_spec.specs.Read.{open_answer, open_leaves};
ghost use Rattle.c_abi.specs.Hosts.{hosted};

use answer::{Answer, Refused};
use gmp::{Kind, Run};

// A run as C is handed it: the kind is a number, 0 for stuff and 1 for data.
#[repr(C)]
#[derive(Clone, Copy, Debug, PartialEq, Eq)]
pub struct HostRun {
    pub number: u64,
    pub kind: u64,
    pub last: u64,
}

impl From<Result<Run, Refused>> for HostRun {
    ghost from_gives = { λ asked run. run ≡ hosted (told asked) };

    // A refused request gives kind stuff and last place 0.
    fn from(asked: Result<Run, Refused>) -> HostRun {
        match asked {
            Ok(run) => HostRun {
                number: 0,
                kind: kind_number(run.kind),
                last: run.last,
            },
            Err(refused) => HostRun {
                number: refused.refusal.number(),
                kind: kind_number(Kind::Stuff),
                last: 0,
            },
        }
    }
}

// Kept: each export hands out C's numbers, `Answer` or `HostRun`, and takes what C hands over one by one: hosts/c/zr400.h declares them so.

// The kind of place j and the last place of its run.
// Stuff and data have an arm each, though the arms read the same: so the number and the kind of each answer are constants, and are stored
// together. Stored one by one they make a caller wait that copies the run.
#[unsafe(no_mangle)]
pub extern "C" fn zr400_run(c: u64, j: u64) -> HostRun
    ensures { result ≡ hosted (run_of c j) }
{
    match gmp::run(c, j) {
        Ok(run) => match run.kind {
            Kind::Stuff => Ok(run).into(),
            Kind::Data => Ok(run).into(),
        },
        Err(refused) => Err(refused).into(),
    }
}

// How many runs there are from place j on.
#[unsafe(no_mangle)]
pub extern "C" fn zr400_runs(c: u64, j: u64) -> Answer
    ensures { result ≡ runs_of c j }
{
    gmp::runs(c, j).into()
}

// Writes the data groups into their places of a window, and zeros into stuff.
#[unsafe(no_mangle)]
pub extern "C" fn zr400_map(c: u64, f: u64, n: u64, groups: &[u8], window: &mut [u8]) -> Answer
    ensures { Mapped c f n groups.now window.old result window.new }
{
    gmp_map::map(c, f, n, groups, window).into()
}

// Gives the data groups of a window back.
#[unsafe(no_mangle)]
pub extern "C" fn zr400_unmap(c: u64, f: u64, n: u64, window: &[u8], groups: &mut [u8]) -> Answer
    ensures { Unmapped c f n window.now groups.old result groups.new }
{
    gmp_map::unmap(c, f, n, window, groups).into()
}

// Whether the information of FEC block t may be asked for. C finds the part itself at 30,583 bytes times t.
#[unsafe(no_mangle)]
pub extern "C" fn zr400_information(n: u64, t: u64, info: &[u8]) -> Answer
    ensures { result ≡ part_answer n t info.now }
{
    capture::information_answer(n, t, info).into()
}

// Codes n super frames whose FEC blocks count from m0 on.
#[unsafe(no_mangle)]
pub extern "C" fn zr400_code(
    n: u64,
    m0: u64,
    info: &[u8],
    parity: &[u8],
    capture: &mut [u8],
) -> Answer
    ensures { Outcome (code_answer n m0 info.now parity.now capture.old)
        (code_leaves n m0 info.now parity.now capture.old) result capture.new }
{
    capture::code(n, m0, info, parity, capture).into()
}

// Reads n super frames back.
#[unsafe(no_mangle)]
pub extern "C" fn zr400_read(
    n: u64,
    m0: u64,
    capture: &[u8],
    info: &mut [u8],
    parity: &mut [u8],
) -> Answer
    ensures { Outcome (read_answer n m0 capture.now info.old parity.old)
        (read_leaves n m0 capture.now info.old parity.old) result (info.new, parity.new) }
{
    capture::read(n, m0, capture, info, parity).into()
}

// Replaces a client block and the parity of its FEC block, and lists the words it wrote.
#[unsafe(no_mangle)]
pub extern "C" fn zr400_edit(
    n: u64,
    block: u64,
    bits: &[u8],
    parity: &[u8],
    capture: &mut [u8],
    list: &mut [u64],
) -> Answer
    ensures { Outcome (edit_answer n block bits.now parity.now capture.old list.old)
        (edit_leaves n block bits.now parity.now capture.old list.old) result (capture.new, list.new) }
{
    capture::edit(n, block, bits, parity, capture, list).into()
}

// Makes the head of a capture file whose bodies have these kinds and lengths.
#[unsafe(no_mangle)]
pub extern "C" fn zr400_archive_write(
    count: u64,
    kinds: &[u64],
    lengths: &[u64],
    head: &mut [u8],
) -> Answer
    ensures { Outcome (write_answer count kinds.now lengths.now (length head.old))
        (write_leaves count kinds.now lengths.now head.old) result head.new }
{
    archive::write(count, kinds, lengths, head).into()
}

// Opens the capture file of `size` bytes that begins with `first`, and lists its table.
#[unsafe(no_mangle)]
pub extern "C" fn zr400_archive_read(
    size: u64,
    first: &[u8],
    kinds: &mut [u64],
    offsets: &mut [u64],
    lengths: &mut [u64],
) -> Answer
    ensures { Outcome
        (open_answer size first.now (length kinds.old) (length offsets.old) (length lengths.old))
        (open_leaves size first.now kinds.old offsets.old lengths.old) result
        (kinds.new, (offsets.new, lengths.new)) }
{
    archive::read(size, first, kinds, offsets, lengths).into()
}

// The document's number for a kind.
// Kept: a number, which `HostRun` hands to C; `hosted` in the clause of `zr400_run` states it.
fn kind_number(kind: Kind) -> u64
    ensures { result ≡ kind_number kind }
{
    match kind {
        Kind::Stuff => 0,
        Kind::Data => 1,
    }
}
