// Reads each file that the arguments name as the two programs read their input, and prints its name in a line and then
// its text; nothing here is decided or proved of them. By the first letter of its name a file is
//   g  a grid file, under today's list of editions;
//   e  a file of either kind, under a list of its own. The kind (a byte: G a grid file, any other a customer's) and the
//      list (src/lists.rt) stand before it;
// and with any other letter a customer's file, under today's list. Without an argument standard input is read as such
// an e file, and only its text is printed: so tests/compare gives it many.
// What is printed is specified in grid_text and customer_text, specs/Text.
// tests/file_cases.py makes the files, and what must come of them by docs/RULES.md.
#![tactic(auto)]

mod lists;

use editions::Editions;
use std::env::FillError;
use std::io::Read;
use std::rt::{Env, Files};
use std::{fs, io};

// No path has more bytes.
const NAME_MOST: usize = 4096;

// Kept: one function for both would take the text's call as a closure with clauses of its own, longer than the two.
fn print_windows<R: Read>(rt: &impl Print, input: &mut R, editions: Editions) -> io::Result<()> {
    let mut text = [0u8; texts::TEXT_MOST];
    let n = grid_text::text(drive::drive(input, editions)?, &mut text);
    rt.write_all(&text[0..n])
}

fn print_statement<R: Read>(rt: &impl Print, input: &mut R, editions: Editions) -> io::Result<()> {
    let mut text = [0u8; texts::TEXT_MOST];
    let n = customer_text::text(drive::drive(input, editions)?, &mut text);
    rt.write_all(&text[0..n])
}

fn print_text<R: Read>(
    rt: &impl Print,
    grid: bool,
    input: &mut R,
    editions: Editions,
) -> io::Result<()> {
    if grid {
        print_windows(rt, input, editions)
    } else {
        print_statement(rt, input, editions)
    }
}

fn print_listed<R: Read>(rt: &impl Print, input: &mut R) -> io::Result<()> {
    let kind = lists::byte(input)?;
    let editions = lists::list(input)?;
    print_text(rt, kind == b'G', input, editions)
}

fn print_file<R: Read>(rt: &impl Print, letter: u8, input: &mut R) -> io::Result<()> {
    if letter == b'e' {
        print_listed(rt, input)
    } else {
        print_text(rt, letter == b'g', input, editions::todays())
    }
}

// A file that cannot be opened is told on standard error, and its lines are missing.
fn print_named(rt: &(impl Files + Print + Eprint), name: &str) -> io::Result<()> {
    match fs::open(rt, name) {
        Ok(mut file) => {
            rt.println(name)?;
            let letter = name.as_bytes().first().copied().unwrap_or(0);
            print_file(rt, letter, &mut file)
        }
        Err(error) => eprintln!(rt; "{name}: {error}"),
    }
}

// Argument i, from 1: false where there is none. One that is no name of a file is told as such a file is.
fn one(rt: &(impl Env + Files + Print + Eprint), i: usize) -> io::Result<bool> {
    let mut name = [0u8; NAME_MOST];
    match rt.arg(i, &mut name) {
        Ok(n) => match str::from_utf8(&name[..n]) {
            Ok(name) => print_named(rt, name)?,
            Err(error) => eprintln!(rt; "argument {i}: {error}")?,
        },
        Err(FillError::TooLong) => eprintln!(rt; "argument {i}: too long")?,
        Err(FillError::NotPresent) => return Ok(false),
    }
    Ok(true)
}

fn main(rt: HostRuntime) -> io::Result<()> {
    // the first word is the program's own name
    if !one(&rt, 1)? {
        return print_listed(&rt, &mut rt.stdin());
    }
    // Kept: the arguments are asked for by number, up to the first that is not there.
    for i in 2..usize::MAX {
        if !one(&rt, i)? {
            break;
        }
    }
    Ok(())
}
