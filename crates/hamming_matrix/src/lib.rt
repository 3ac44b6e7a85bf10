// The parity-check matrix H of the inner code, 001 section 10.5, and what follows from it alone, as tables to lend: a constant is copied at every use.
#![tactic(auto)]

mod columns;
mod positions;
mod tails;

ghost use Rattle.std.specs.Prelude.{◌≡◌};
ghost use Rattle.hamming_matrix.specs.Columns.{columns};
ghost use Rattle.hamming_matrix.specs.Steps.{tail_table, position_table};

use columns::COLUMNS;
use positions::POSITIONS;
use tails::TAILS;

// The columns of H.
pub fn column_table() -> [u16; 128]
    ensures { result ≡ columns }
{
    COLUMNS
}

// The nine check bits, bit 119 on top, by the checks that they add.
pub fn tail_table() -> [u16; 512]
    ensures { result ≡ tail_table }
{
    TAILS
}

// The bit by its column; 128 where no column is.
// Kept: 128 and not an Option: the definitions `position_table` and `position_of`, on which `one_position_table` and `repair_of` rest, say it.
pub fn position_table() -> [u8; 512]
    ensures { result ≡ position_table }
{
    POSITIONS
}
