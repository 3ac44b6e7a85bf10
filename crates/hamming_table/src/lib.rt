// The inner code by tables that are made once and lent.
#![tactic(auto)]

ghost use Rattle.std.specs.Prelude.{◌≡◌, ◌+◌, ◌*◌, ◌≤◌, ◌<◌, get_or};
ghost use Rattle.sizes.specs.Sizes.{word_bytes};
ghost use Rattle.hamming_matrix.specs.Columns.{columns};
ghost use Rattle.hamming.specs.Repair.{repair_at};
ghost use Rattle.hamming_table.specs.Steps.{EntriesBegun, Doubles, byte_table, sum_by_tables, word_by_tables};

use hamming::Repaired;

// Kept: `double`, `fill_row` and `byte_table` count: `double` reads one place of the table in each turn and writes another of the same
// table, `fill_row` goes from the last of eight columns back to the first, and `byte_table` hands the number of the row on.

// The entries from at + n on, out of the n before them: each has one bit more, whose column is c.
fn double(t: &mut [u16; 4096], at: usize, n: usize, c: u16)
    requires { (at + 2 * n ≤ 256 * word_bytes) × Doubles at n c × EntriesBegun (at + n) t.old }
    ensures { EntriesBegun (at + 2 * n) t.new }
{
    for r in 0..n {
        t[at + n + r] = t[at + r] ^ c;
    }
}

// The entries of byte k, from those before them. Its lowest bit comes first.
fn fill_row(c: &[u16; 128], k: usize, t: &mut [u16; 4096])
    requires { (c.now ≡ columns) × (k < word_bytes) × EntriesBegun (256 * k) t.old }
    ensures { EntriesBegun (256 * k + 256) t.new }
{
    t[256 * k] = 0;
    let mut n: usize = 1;
    for j in 0..8 {
        double(t, 256 * k, n, c[8 * k + 7 - j]);
        n = n * 2;
    }
}

// What each byte adds to the checks at each place: what `checks_by` takes.
pub fn byte_table() -> [u16; 4096]
    ensures { result ≡ byte_table }
{
    let c = hamming_matrix::column_table();
    let mut t = [0u16; 4096];
    for k in 0..sizes::WORD_BYTES {
        fill_row(&c, k, &mut t);
    }
    t
}

// The entry of a table at c; 0 past the end.
fn entry_at(t: &[u16], c: u16) -> u16
    ensures { result ≡ get_or t.now c 0 }
{
    t.get(usize::from(c)).copied().unwrap_or(0)
}

// The sum of a table's entries for the bytes of a word: with the table of `byte_table`, the nine checks.
// Kept: any array, and no struct that is the table of `byte_table` alone: `sum_by_tables` promises the sum for every table that is lent.
pub fn checks_by(t: &[u16; 4096], w: [u8; 16]) -> u16
    ensures { result ≡ sum_by_tables t.now w }
{
    let mut sum = 0u16;
    for (k, x) in w.iter().enumerate() {
        sum ^= t[256 * k + usize::from(*x)];
    }
    sum
}

// The code word of an element by lent tables: those of `byte_table` and `hamming_matrix::tail_table`.
pub fn encode_by(t: &[u16; 4096], tails: &[u16; 512], e: [u8; 16]) -> [u8; 16]
    ensures { result ≡ word_by_tables t.now tails.now e }
{
    hamming::join(e, entry_at(tails, checks_by(t, hamming::join(e, 0))))
}

// Repair of a word whose checks c are known, as by `checks_by`, and by the lent table of `hamming_matrix::position_table`.
pub fn repair_known(positions: &[u8; 512], w: [u8; 16], c: u16) -> Repaired
    ensures { result ≡ repair_at w c (get_or positions.now c 0) }
{
    hamming::repair_at(w, c, bits::byte_at(positions, usize::from(c)))
}
