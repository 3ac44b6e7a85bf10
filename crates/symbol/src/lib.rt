// DP-16QAM symbols: the levels of a byte. 001 section 11.
#![tactic(auto)]

ghost use Rattle.std.specs.Prelude.{◌≡◌, ◌/◌, ◌%◌};
ghost use Rattle.symbol.specs.Levels.{level_of, pair_of, symbol_of, byte_of_symbol};

// The four levels of a symbol, in the order of its bits: in-phase and quadrature of X, then of Y.
#[derive(Clone, Copy, Debug, PartialEq, Eq)]
pub struct Symbol {
    pub xi: i8,
    pub xq: i8,
    pub yi: i8,
    pub yq: i8,
}

// The level of a pair of bits, the two lowest of p.
pub fn level(p: u8) -> i8
    ensures { result ≡ level_of (p / 2 % 2) (p % 2) }
{
    if p / 2 % 2 == 0 {
        if p % 2 == 0 { -3 } else { -1 }
    } else {
        if p % 2 == 0 { 3 } else { 1 }
    }
}

// The pair of bits whose level is nearest.
pub fn pair(v: i8) -> u8
    ensures { result ≡ pair_of v }
{
    if v < -2 {
        return 0;
    }
    if v < 0 {
        return 1;
    }
    if v < 2 { 3 } else { 2 }
}

// The symbol of a byte.
impl From<u8> for Symbol {
    ghost from_gives = { λ x s. s ≡ symbol_of x };

    fn from(x: u8) -> Symbol {
        Symbol {
            xi: level(x / 64),
            xq: level(x / 16),
            yi: level(x / 4),
            yq: level(x),
        }
    }
}

// The byte of a symbol.
impl From<Symbol> for u8 {
    ghost from_gives = { λ s x. x ≡ byte_of_symbol s };

    fn from(s: Symbol) -> u8 {
        64 * pair(s.xi) + 16 * pair(s.xq) + 4 * pair(s.yi) + pair(s.yq)
    }
}
