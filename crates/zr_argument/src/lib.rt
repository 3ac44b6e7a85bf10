// The numbers among a command's arguments.
#![tactic(auto)]

ghost use Rattle.std.specs.Prelude.{◌≡◌};
ghost use Rattle.zr_argument.specs.Numbers.{number_of};

// A number above MOST is read as MOST, which is outside every set that the coder states.
pub const MOST: u32 = 1000000;

// The number that s is in decimal; none where s is empty or not all digits.
// The law is named here and not in proofs/: so each return behind the loop is asked it.
#[tactic(auto, using(crate::proofs::Digits::all_read))]
pub fn number_of(s: &[u8]) -> Option<u64>
    ensures { result ≡ number_of s.now }
{
    if s.is_empty() {
        return None;
    }
    let mut v = 0;
    for &b in s {
        v = decimal::next_value(MOST, v, b)?;
    }
    Some(v)
}
