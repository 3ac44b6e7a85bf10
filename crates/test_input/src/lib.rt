// What the programs of captures start from: buffers filled from a seed, and captures coded from them.
#![tactic(auto)]

ghost use Rattle.std.specs.Prelude.{◌≡◌, length};
ghost use Rattle.answer.specs.Outcomes.{Outcome};
ghost use Rattle.answer.specs.Refusals.{answered};
ghost use Rattle.buffer_sizes.specs.Lengths.{large_bytes};
ghost use Rattle.test_input.specs.Inputs.{first_number, seeded, room_seed, room_answer, room_leaves};

use answer::{Refusal, Refused};
use test_data::Generator;

// The first number of the FEC blocks of n super frames.
pub fn first_number(n: u64) -> u64
    ensures { result ≡ first_number n }
{
    7 * (n % 9)
}

// Fills a buffer from a seed.
pub fn fill(seed: u64, out: &mut [u8])
    ensures { out.new ≡ seeded seed (length out.old) }
{
    Generator::start(seed).fill(out);
}

// Fills a room with the information of n super frames and, behind it, their parity.
pub fn fill_room(n: u64, room: &mut [u8])
    ensures { room.new ≡ seeded (room_seed n) (length room.old) }
{
    fill(100 + n % 9, room);
}

// Codes what fills a room; a room that is too short is refused, as the first buffer.
pub fn code_room(n: u64, room: &[u8], capture: &mut [u8]) -> Result<u64, Refused>
    ensures { Outcome (room_answer n room.now capture.old) (room_leaves n room.now capture.old) (answered result) capture.new }
{
    let a = buffer_sizes::information(n);
    let b = a + buffer_sizes::parity(n);
    if room.len() < b {
        return Err(Refusal::WrongLength.at(answer::buffer_place(1)));
    }
    code::code(n, first_number(n), &room[..a], &room[a..b], capture)
}

// Codes n super frames of what their seed fills a room with.
pub fn code(n: u64, capture: &mut [u8]) -> Result<u64, Refused>
    ensures { Outcome (room_answer n (seeded (room_seed n) large_bytes) capture.old) (room_leaves n (seeded (room_seed n) large_bytes) capture.old) (answered result) capture.new }
{
    let mut room = buffer_sizes::large_space();
    fill_room(n, &mut room);
    code_room(n, &room, capture)
}
