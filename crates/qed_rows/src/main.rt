//! Rows: files of lines. Each line puts a file on a shelf in memory, makes a call, or shows what
//! came of it. Each line is printed, with its answer below it. The format is in `README.md`.
#![tactic(auto)]

mod asked;
mod bench;
mod calls;
mod devices;
mod digest;
mod file_parts;
mod files;
mod layer;
mod line;
mod numbers;
mod row;
mod shapes;
mod struck;
mod test_lines;

use crate::bench::Bench;
use crate::row::tell;
use std::{env, fs, io};

/// Prints a line, and its answer below it.
fn print_line(rt: &HostRuntime, bench: &mut Bench, line: &str) -> io::Result<()> {
    println!(rt; "{line}")?;
    let text = tell(rt, bench, line)?;
    print!(rt; "{text}")
}

/// Prints the lines of a file of rows, each with its answer.
fn print_rows(rt: &HostRuntime, rows: &str) -> io::Result<()> {
    let mut bench = Bench::new(rt.alloc());
    for line in rows.lines() {
        print_line(rt, &mut bench, line)?;
    }
    Ok(())
}

fn main(rt: HostRuntime) -> io::Result<()> {
    let mut names = env::args(&rt)?;
    let _ = names.next();
    for name in names {
        let rows = fs::read_to_string(&rt, name.as_str())?;
        print_rows(&rt, rows.as_str())?;
    }
    Ok(())
}
