// What writing answers, and the head that it makes.
ghost use Rattle.std.specs.Prelude.{◌≡◌, ◌+◌, ◌≤◌, length};
ghost use Rattle.answer.specs.Refusals.{answered};
ghost use Rattle.archive_spec.specs.File.{most_entries, entry_bytes, head_bytes, fixed_bytes, fixed, table_entry, head_of};
ghost use Rattle.archive_spec.specs.Write.{nth, any_below, entry_outside, handed_in, write_outside, write_answer};
ghost use Rattle.archive_spec.specs.Steps.{Head, HeadUpTo, Inside, outside_at, placed};

use crate::{BEFORE_ENTRIES, ENTRY_BYTES, field};
use answer::{Refusal, Refused};

// The most that a field of four bytes holds.
const FIELD_MOST: u64 = u32::MAX as u64;

// The table of writing, its tests in turn.
pub(crate) fn judge(count: u64, kinds: &[u64], lengths: &[u64], head: u64) -> Result<u64, Refused>
    ensures { answered result ≡ write_answer count kinds.now lengths.now head }
{
    answer::refuse_when(outside(count, kinds, lengths), Refusal::OutsideSet, 0)?;
    answer::refuse_length(1, kinds.len() as u64, count)?;
    answer::refuse_length(2, lengths.len() as u64, count)?;
    let bytes = field::entry_from(count as usize) as u64;
    answer::refuse_length(3, head, bytes)?;
    Ok(bytes)
}

// Whether the count is none, or an entry that was handed in has a kind, a length or an offset outside its field.
fn outside(count: u64, kinds: &[u64], lengths: &[u64]) -> bool
    ensures { result ≡ write_outside count kinds.now lengths.now }
{
    field::count_outside(count) || any_outside(count as usize, kinds, lengths)
}

fn any_outside(n: usize, kinds: &[u64], lengths: &[u64]) -> bool
    requires { n ≤ most_entries }
    ensures { result ≡ any_below (entry_outside n (nth kinds.now) (nth lengths.now)) (handed_in n kinds.now lengths.now) }
{
    let m = n.min(kinds.len().min(lengths.len()));
    let mut from = field::entry_from(n) as u64;
    for (&kind, &long) in kinds[..m].iter().zip(&lengths[..m]) {
        if is_outside(kind, from, long) {
            return true;
        }
        from += long;
    }
    false
}

// The same of one entry, whose body begins at `from`.
fn is_outside(kind: u64, from: u64, long: u64) -> bool
    ensures { result ≡ outside_at kind from long }
{
    if field::kind_outside(kind) {
        return true;
    }
    if FIELD_MOST < long {
        return true;
    }
    FIELD_MOST < from
}

// The fixed bytes, the count, and the entries one behind the other.
pub(crate) fn put_head(n: usize, kinds: &[u64], lengths: &[u64], head: &mut [u8])
    requires { Head n kinds.now lengths.now head.old }
    ensures { head.new ≡ head_of n (nth kinds.now) (nth lengths.now) }
{
    put_fixed(head);
    field::put_number(n as u64, 2, 16, head);
    put_entries(n, kinds, lengths, head);
}

fn put_entries(n: usize, kinds: &[u64], lengths: &[u64], head: &mut [u8])
    requires { Head n kinds.now lengths.now head.old × HeadUpTo n kinds.now lengths.now 0 head.old (head_bytes n) }
    ensures { head.new ≡ head_of n (nth kinds.now) (nth lengths.now) }
{
    let mut at = BEFORE_ENTRIES;
    let mut from = field::entry_from(n) as u64;
    for (&kind, &long) in kinds.iter().zip(lengths) {
        put_entry(kind, from, long, at, head);
        at += ENTRY_BYTES;
        from += long;
    }
}

fn put_fixed(head: &mut [u8])
    requires { fixed_bytes ≤ length head.old }
    ensures { head.new ≡ placed head.old 0 fixed }
{
    head[..16].copy_from_slice(&field::FIXED);
}

fn put_entry(kind: u64, from: u64, long: u64, at: usize, head: &mut [u8])
    requires { Inside kind from long × (at + entry_bytes ≤ length head.old) }
    ensures { head.new ≡ placed head.old at (table_entry kind from long) }
{
    field::put_number(kind, 1, at, head);
    field::put_number(from, 4, at + 1, head);
    field::put_number(long, 4, at + 5, head);
}
