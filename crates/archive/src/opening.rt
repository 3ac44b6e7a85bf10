// What reading answers.
ghost use Rattle.std.specs.Prelude.{◌≡◌, ◌≤◌, ◌<◌};
ghost use Rattle.answer.specs.Rows.{answer_of};
ghost use Rattle.answer.specs.Refusals.{answered};
ghost use Rattle.archive_spec.specs.File.{most_entries, field_most, count_in};
ghost use Rattle.archive_spec.specs.Read.{is_no_archive, bad_kind, off_rule, open_early_rows, open_late_rows, open_answer};
ghost use Rattle.archive_spec.specs.Steps.{bad_count_of, off_rule_at, place_found, entries_answer};

use crate::{BEFORE_ENTRIES, MOST_ENTRIES, MOST_HEAD_BYTES, field};
use answer::{Refusal, Refused};

// The table of reading, its tests in turn: the lengths first, then the file.
pub(crate) fn judge(
    size: u64,
    first: &[u8],
    kinds: u64,
    offsets: u64,
    lengths: u64,
) -> Result<u64, Refused>
    ensures { answered result ≡ open_answer size first.now kinds offsets lengths }
{
    let most = MOST_ENTRIES as u64;
    let wanted = size.min(MOST_HEAD_BYTES as u64);
    answer::refuse_length(1, first.len() as u64, wanted)?;
    answer::refuse_length(2, kinds, most)?;
    answer::refuse_length(3, offsets, most)?;
    answer::refuse_length(4, lengths, most)?;
    judge_file(size, first)
}

// Numbers 10 to 12.
fn judge_file(size: u64, first: &[u8]) -> Result<u64, Refused>
    ensures { answered result ≡ answer_of (open_late_rows size first.now) (count_in first.now) }
{
    answer::refuse_when(is_no_archive(size, first), Refusal::NotArchive, 0)?;
    let n = field::number_at(2, first, 16);
    answer::refuse_when(is_bad_count(size, n), Refusal::BadEntry, 0)?;
    judge_entries(size, first, n as usize)
}

// 11 and 12 of the n entries.
fn judge_entries(size: u64, first: &[u8], n: usize) -> Result<u64, Refused>
    requires { n ≤ most_entries }
    ensures { answered result ≡ entries_answer size first.now n }
{
    let bad = first_bad_kind(size, first, n);
    let off = first_off_rule(size, first, n);
    answer::refuse_at(Refusal::BadEntry, bad)?;
    answer::refuse_at(Refusal::Misplaced, off)?;
    Ok(n as u64)
}

fn is_no_archive(size: u64, first: &[u8]) -> bool
    ensures { result ≡ is_no_archive size first.now }
{
    size < 16 || !first.starts_with(&field::FIXED)
}

fn is_bad_count(size: u64, n: u64) -> bool
    ensures { result ≡ bad_count_of size n }
{
    size < BEFORE_ENTRIES as u64 || field::count_outside(n)
}

// The place, counted from 1, of the first whole entry whose kind is none.
fn first_bad_kind(size: u64, s: &[u8], n: usize) -> Option<u64>
    requires { n ≤ most_entries }
    ensures { result ≡ place_found (bad_kind size s.now) n }
{
    for e in 0..n {
        if is_bad_kind(size, s, e) {
            return Some(e as u64 + 1);
        }
    }
    None
}

fn is_bad_kind(size: u64, s: &[u8], e: usize) -> bool
    requires { e < most_entries }
    ensures { result ≡ bad_kind size s.now e }
{
    let whole = field::entry_from(e + 1) as u64 <= size;
    whole && field::kind_outside(field::number_at(1, s, field::entry_from(e)))
}

// The place of the first entry that is cut off or not where the rule puts it.
fn first_off_rule(size: u64, s: &[u8], n: usize) -> Option<u64>
    requires { n ≤ most_entries }
    ensures { result ≡ place_found (off_rule size s.now n) n }
{
    let mut from = field::entry_from(n) as u64;
    for e in 0..n {
        let long = field::number_at(4, s, field::entry_from(e) + 5);
        if is_off_rule(size, s, n, e, from, long) {
            return Some(e as u64 + 1);
        }
        from += long;
    }
    None
}

// The same of entry e, whose body the rule puts at `from`.
fn is_off_rule(size: u64, s: &[u8], n: usize, e: usize, from: u64, long: u64) -> bool
    requires { (e < most_entries) × (long ≤ field_most) }
    ensures { result ≡ off_rule_at size s.now n e from long }
{
    if size < field::entry_from(e + 1) as u64 {
        return true;
    }
    if field::number_at(4, s, field::entry_from(e) + 1) != from {
        return true;
    }
    if e + 1 != n {
        return false;
    }
    from + long != size
}
