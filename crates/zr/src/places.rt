// The commands on GMP places.
use answer::{Refusal, Refused};
use std::io;
use std::io::Write;
use zr_shell::Shell;

// zr map C F N GROUPS WINDOW
// Not inlined, here and below: else `main` would hold the space, whatever the command.
#[inline(never)]
pub fn map<W: Write>(shell: &mut Shell<W>) -> io::Result<()> {
    convert(shell, map_groups)
}

// zr unmap C F N WINDOW GROUPS
#[inline(never)]
pub fn unmap<W: Write>(shell: &mut Shell<W>) -> io::Result<()> {
    convert(shell, unmap_window)
}

// What both take: three numbers and a file. The step makes the other file of it.
fn convert<W: Write, F: FnOnce(&mut Shell<W>, u64, u64, u64, &[u8]) -> io::Result<()>>(
    shell: &mut Shell<W>,
    step: F,
) -> io::Result<()>
    requires { F.IsAlwaysCallable step }
{
    let Some(c) = shell.number_at(2, b"C")? else {
        return Ok(());
    };
    let Some(f) = shell.number_at(3, b"F")? else {
        return Ok(());
    };
    let Some(n) = shell.number_at(4, b"N")? else {
        return Ok(());
    };
    let mut from = buffer_sizes::large_space();
    let Some(from) = shell.loaded(5, &mut from)? else {
        return Ok(());
    };
    step(shell, c, f, n, from)
}

fn map_groups<W: Write>(
    shell: &mut Shell<W>,
    c: u64,
    f: u64,
    n: u64,
    groups: &[u8],
) -> io::Result<()> {
    let mut space = buffer_sizes::large_space();
    let window = &mut space[..buffer_sizes::window(n)];
    match gmp_map::map(c, f, n, groups, window) {
        Ok(count) => save(shell, count, window),
        Err(refused) => {
            say_refused(shell, refused, &["groups", "window"])?;
            let k = buffer_sizes::groups(c, f, n);
            shell.length(refused, b"GROUPS", 5, groups.len(), k)?;
            shell.spare(refused, b"GROUPS", 5)
        }
    }
}

fn unmap_window<W: Write>(
    shell: &mut Shell<W>,
    c: u64,
    f: u64,
    n: u64,
    window: &[u8],
) -> io::Result<()> {
    let mut space = buffer_sizes::large_space();
    let groups = &mut space[..buffer_sizes::groups(c, f, n)];
    match gmp_map::unmap(c, f, n, window, groups) {
        Ok(count) => save(shell, count, groups),
        Err(refused) => {
            say_refused(shell, refused, &["window", "groups"])?;
            let k = buffer_sizes::window(n);
            shell.length(refused, b"WINDOW", 5, window.len(), k)
        }
    }
}

fn save<W: Write>(shell: &mut Shell<W>, count: u64, bytes: &[u8]) -> io::Result<()> {
    if shell.save(6, bytes)? {
        shell.done(count, b" group", b"\n")?;
    }
    Ok(())
}

fn say_refused<W: Write>(shell: &mut Shell<W>, refused: Refused, names: &[&str]) -> io::Result<()> {
    shell.refused(refused, names)?;
    shell.sets(
        refused,
        b"  C is 0 to 10220, F odd and 1 to 10219, N even and at least 2, and the window ends at or before place 10220\n",
    )
}

// zr runs C
pub fn runs<W: Write>(shell: &mut Shell<W>) -> io::Result<()> {
    let Some(c) = shell.number_at(2, b"C")? else {
        return Ok(());
    };
    if sizes::PLACES < c {
        let refused = Refusal::OutsideSet.at(0);
        shell.refused::<&str>(refused, &[])?;
        return shell.sets(refused, b"  C is 0 to 10220\n");
    }
    gmp_print::print(&mut shell.out, c)
}
