// The person at the shell: the files and numbers that the arguments of a command name, and what is said. No contract can say what is read or
// written: `hosts/check-zr` runs the command that stands on this.
#![tactic(auto)]

pub mod files;
pub mod said;

// Where the answer goes, and where the arguments and the files come from.
#[derive(Drop)]
pub struct Shell<'a, W> {
    pub out: W,
    pub rt: &'a HostRuntime,
}
