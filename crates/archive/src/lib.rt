// The capture file: document 02, M-100. Writing makes the head of one. Reading opens or refuses one by its size and its first bytes alone.
#![tactic(auto)]

ghost use Rattle.std.specs.Prelude.{◌≡◌, length};
ghost use Rattle.answer.specs.Outcomes.{Outcome};
ghost use Rattle.answer.specs.Refusals.{answered};
ghost use Rattle.archive_spec.specs.Write.{write_answer, write_leaves};
ghost use Rattle.archive_spec.specs.Read.{open_answer, open_leaves};

mod field;
mod kind;
mod opening;
mod writing;

use answer::Refused;
pub use kind::{Kind, UnknownKind};

pub const ENTRY_BYTES: usize = 9;

pub const MOST_ENTRIES: usize = 32;

// The bytes before the entries, and with as many entries as there can be.
pub const BEFORE_ENTRIES: usize = 18;

pub const MOST_HEAD_BYTES: usize = BEFORE_ENTRIES + ENTRY_BYTES * MOST_ENTRIES;

// Kept: kinds, offsets and lengths are lists of numbers side by side, here and wherever the table is handed on, since C hands them over so, in
// `zr400_archive_write` and `zr400_archive_read`.

// Makes the head of a file whose bodies have these kinds and lengths. The count is that of its bytes.
pub fn write(count: u64, kinds: &[u64], lengths: &[u64], head: &mut [u8]) -> Result<u64, Refused>
    ensures { Outcome (write_answer count kinds.now lengths.now (length head.old))
        (write_leaves count kinds.now lengths.now head.old) (answered result) head.new }
{
    let bytes = writing::judge(count, kinds, lengths, head.len() as u64)?;
    writing::put_head(count as usize, kinds, lengths, head);
    Ok(bytes)
}

// Opens the file of `size` bytes that begins with `first`, and lists its table. The count is that of its entries.
pub fn read(
    size: u64,
    first: &[u8],
    kinds: &mut [u64],
    offsets: &mut [u64],
    lengths: &mut [u64],
) -> Result<u64, Refused>
    ensures { Outcome
        (open_answer size first.now (length kinds.old) (length offsets.old) (length lengths.old))
        (open_leaves size first.now kinds.old offsets.old lengths.old) (answered result)
        (kinds.new, (offsets.new, lengths.new)) }
{
    let n = opening::judge(
        size,
        first,
        kinds.len() as u64,
        offsets.len() as u64,
        lengths.len() as u64,
    )?;
    field::list_all(first, n as usize, kinds, offsets, lengths);
    Ok(n)
}
