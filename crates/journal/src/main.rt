// Prints a journal: a line for each record, and a last line that says how it ends. It comes from standard input; where arguments
// name files, one after the other is printed, - being standard input.
#![tactic(auto)]

mod text;
mod window;

use std::env::{Env, FillError};
use std::fs::{File, Files};
use std::io;
use std::io::Input;

// Prints the journal of a file.
fn file(rt: &(impl Files + Print + Eprint), path: &str) -> io::Result<()> {
    match File::open(rt, path) {
        Ok(mut opened) => window::print(rt, &mut opened, path),
        Err(e) => {
            text::failed(rt, path, e);
            Ok(())
        }
    }
}

// Prints the journal of standard input.
fn standard_input(rt: &(impl Input + Print + Eprint)) -> io::Result<()> {
    window::print(rt, &mut rt.reader(), "-")
}

// Prints the journal that an argument names. The name of a file is text: other bytes are told, escaped.
fn given(rt: &(impl Files + Input + Print + Eprint), name: &[u8]) -> io::Result<()> {
    if name == b"-".as_slice() {
        return standard_input(rt);
    }
    match str::from_utf8(name) {
        Ok(path) => file(rt, path),
        Err(e) => {
            text::failed(rt, name.escape_ascii(), e);
            Ok(())
        }
    }
}

// Prints the journal that argument i names, and tells whether there is such an argument.
fn named(rt: &(impl Env + Files + Input + Print + Eprint), i: usize) -> io::Result<bool> {
    let mut room = [0u8; 4096];
    match rt.arg(i, &mut room) {
        Ok(length) => {
            given(rt, &room[..length])?;
            Ok(true)
        }
        Err(FillError::TooLong) => {
            text::failed(rt, "journal: argument", "File name too long");
            Ok(true)
        }
        Err(FillError::NotPresent) => Ok(false),
    }
}

fn main(rt: HostRuntime) -> io::Result<()> {
    if !named(&rt, 1)? {
        return standard_input(&rt);
    }
    // nothing says how many arguments there are: the first that is missing ends the loop
    for i in 2..usize::MAX {
        if !named(&rt, i)? {
            break;
        }
    }
    Ok(())
}
