// Runs every table of data/ and writes how many lines were run, a space, how many differ, and a newline. codec.txt, dictionary.txt,
// halving.txt, faults.txt, ranges.txt and editions.txt are our own; the others hold the Rust's answers, as oracle/README.md says, in parts
// that are read at one go.
#![tactic(auto)]

ghost use Rattle.std.specs.Prelude.{◌≤◌, length, IfOk};

use std::io::Read;
use std::rt::Files;
use std::{fs, io};
use tables::State;

// Reads until the buffer is full or the file ends, and answers how many bytes it put at the buffer's start.
fn read_full(file: &mut impl Read, buffer: &mut [u8]) -> io::Result<usize>
    ensures { IfOk result (λ n. n ≤ length buffer.new) }
{
    // A read may give fewer bytes than there are, and `read_exact` takes a file that ends before the buffer for an error.
    let mut done = 0;
    while done < buffer.len() {
        let n = file.read(&mut buffer[done..])?;
        if n == 0 {
            break;
        }
        done += n;
    }
    Ok(done)
}

// The lines of a table, on the memory that the one before left: a table in parts goes on where its last part ended.
fn part(rt: &impl Files, name: &str, state: &mut State) -> io::Result<()> {
    let Ok(mut file) = fs::open(rt, name) else {
        tables::missing(state);
        return Ok(());
    };
    let mut buffer = [0u8; 65536];
    let n = read_full(&mut file, &mut buffer)?;
    tables::run(&buffer[..n], state);
    Ok(())
}

// A table in parts, the first of them on memory of zeros.
fn table(rt: &impl Files, parts: &[&str], state: &mut State) -> io::Result<()> {
    state.memory = memory::zeros();
    for name in parts {
        part(rt, name, state)?;
    }
    Ok(())
}

fn ours(rt: &impl Files, state: &mut State) -> io::Result<()> {
    for name in [
        "codec.txt",
        "dictionary.txt",
        "halving.txt",
        "faults.txt",
        "ranges.txt",
        "editions.txt",
    ] {
        table(rt, &[name], state)?;
    }
    Ok(())
}

fn of_the_rust(rt: &impl Files, state: &mut State) -> io::Result<()> {
    for parts in [
        ["rust_1.txt", "rust_2.txt"],
        ["histories_1.txt", "histories_2.txt"],
        ["stores_1.txt", "stores_2.txt"],
        ["payloads_1.txt", "payloads_2.txt"],
        ["checks_1.txt", "checks_2.txt"],
    ] {
        table(rt, &parts, state)?;
    }
    Ok(())
}

fn main(rt: HostRuntime) -> io::Result<()> {
    let mut state = tables::fresh();
    ours(&rt, &mut state)?;
    of_the_rust(&rt, &mut state)?;
    println!(rt; "{} {}", state.run, state.differ)
}
