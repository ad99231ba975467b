// Prints the report on every cut of the file on standard input, and on the file with each of its bytes set to each value.
// What it should print comes from tools/oracle.py.
#![tactic(auto)]

ghost use Rattle.std.specs.Prelude.{◌≡◌, ◌<◌, length};

use report::{ENOUGH, Report, fill};

// What is printed of the file with one of its bytes set to a value.
fn damaged(rt: &HostRuntime, file: &mut [u8], at: usize, value: u8) -> anyhow::Result<String>
    requires { at < length file.old }
    ensures { length file.new ≡ length file.old }
{
    file[at] = value;
    let report = Report::of(file);
    Ok(format!(in rt.alloc(); "{report}")?)
}

// The reports on the file with one of its bytes set to each value, a line for values in a row of which the same is printed.
fn damage(rt: &HostRuntime, file: &mut [u8], at: usize) -> anyhow::Result<()>
    requires { at < length file.old }
{
    let good = file[at];
    let mut first = 0;
    let mut said = damaged(rt, file, at, first)?;
    for value in 1..=255 {
        let says = damaged(rt, file, at, value)?;
        if says != said {
            let last = value - 1;
            println!(rt; "byte {at}, {first} to {last}: {said}")?;
            first = value;
            said = says;
        }
    }
    println!(rt; "byte {at}, {first} to 255: {said}")?;
    file[at] = good;
    Ok(())
}

fn main(rt: HostRuntime) -> anyhow::Result<()> {
    // A buffer and its size, as `fill` takes and answers them.
    let mut buffer = [0; ENOUGH];
    let size = fill(&mut rt.stdin(), &mut buffer)?;
    let file = &mut buffer[..size];
    // By number: a cut is so many bytes, and its line says how many.
    for cut in 0..file.len() {
        let report = Report::of(&file[..cut]);
        println!(rt; "cut {cut}: {report}")?;
    }
    // By index: each turn writes the file, which an iterator over it would hold.
    for at in 0..file.len() {
        damage(&rt, file, at)?;
    }
    Ok(())
}
