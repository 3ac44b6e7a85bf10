// Decimal digits, read a byte at a time up to a bound, so that any number of them is read.
#![tactic(auto)]

ghost use Rattle.std.specs.Prelude.{◌≡◌};
ghost use Rattle.decimal.specs.Steps.{next_value};

// One byte more behind digits that were read as v; none where it is no digit. A number above `most` is read as `most`.
pub fn next_value(most: u32, v: u64, b: u8) -> Option<u64>
    ensures { result ≡ next_value most v b }
{
    let most = u64::from(most);
    if most < v || !b.is_ascii_digit() {
        return None;
    }
    let next = v * 10 + u64::from(b - b'0');
    Some(next.min(most))
}
