// Reads a hall's file from standard input and prints the report on it.
#![tactic(auto)]

use report::{ENOUGH, Report, fill};
use std::io;

fn main(rt: HostRuntime) -> io::Result<()> {
    // A buffer and its size: a Vec could run out of memory, and this program cannot.
    let mut buffer = [0; ENOUGH];
    let size = fill(&mut rt.stdin(), &mut buffer)?;
    let report = Report::of(&buffer[..size]);
    println!(rt; "{report}")
}
