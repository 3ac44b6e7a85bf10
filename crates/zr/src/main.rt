// The coder for people at a shell. The launcher, `zr` at the top of the repository, starts it and says what it takes.
#![tactic(auto)]

mod captures;
mod places;

use std::io;
use std::io::Write;
use zr_shell::Shell;
use zr_shell::files::ARGUMENT_BYTES;

// The command that the first word names, where there are as many arguments as it takes.
fn answer_to<W: Write>(shell: &mut Shell<W>) -> io::Result<()> {
    let mut space = [0u8; ARGUMENT_BYTES];
    let word = shell.argument(1, &mut space);
    match (word, shell.argument_count()) {
        (b"code", 7) => captures::code(shell),
        (b"read", 7) => captures::read(shell),
        (b"edit", 8) => captures::edit(shell),
        (b"map", 7) => places::map(shell),
        (b"unmap", 7) => places::unmap(shell),
        (b"runs", 3) => places::runs(shell),
        (b"pack", n) if 5 <= n && n % 2 == 1 => zr_archive::pack(shell),
        (b"list", 3) => zr_archive::list(shell),
        _ => shell.unknown(),
    }
}

fn main(rt: HostRuntime) -> io::Result<()> {
    answer_to(&mut Shell {
        out: io::writer(&rt),
        rt: &rt,
    })
}
