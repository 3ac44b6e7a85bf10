// Reads a capture file of any size from standard input and lists its table: document 02, M-100.
#![tactic(auto)]

use std::io;
use std::io::Write;
use zr_shell::said;

// Nothing is printed before the end is known. Where reading fails, standard error says why and standard output stays empty: a file that was
// not seen to its end is neither listed nor refused.
fn main(rt: HostRuntime) -> io::Result<()> {
    let mut out = io::writer(&rt);
    list(&mut out, &rt)
}

fn list<W: Write>(out: &mut W, rt: &HostRuntime) -> io::Result<()> {
    let mut kinds = [0u64; 32];
    let mut offsets = [0u64; 32];
    let mut lengths = [0u64; 32];
    match archive_input::read(&mut rt.stdin(), &mut kinds, &mut offsets, &mut lengths) {
        Ok(Ok(count)) => archive_print::print(out, &kinds, &offsets, &lengths, count),
        Ok(Err(refused)) => archive_print::print_refused(out, refused.refusal.number()),
        Err(error) => {
            said::reason(rt, b"standard input", &error);
            Ok(())
        }
    }
}
