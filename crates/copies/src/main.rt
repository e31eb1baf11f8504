// Each argument names a model file: its records are appended one after another to a buffer of bytes aa, and a line says
// whether that rebuilt the file and left the bytes behind it as they were.
#![tactic(auto)]

use std::env::{Env, FillError};
use std::fs::File;
use std::{io, str};

// What the buffer is filled with.
const UNTOUCHED: u8 = 0xaa;

// The file's records into the buffer: the used length at the end, or where it stopped.
fn rebuild(file: &[u8], buffer: &mut [u8]) -> usize {
    // By hand: the size of a record is known when it is decoded, and the used length goes on with it.
    let mut used = 0;
    let mut rest = file;
    while !rest.is_empty() {
        let r = decoding::first_record(rest);
        match writer::append(buffer, used, r.kind, handing::numbers_of(r)) {
            Ok(end) => used = end,
            Err(_) => return used,
        }
        rest = rest.get(records::size_of(r.kind)..).unwrap_or_default();
    }
    used
}

// The line for a readable file.
fn compare(rt: &impl Print, file: &[u8]) -> io::Result<()> {
    let mut buffer = [UNTOUCHED; 4160];
    let used = rebuild(file, &mut buffer);
    match buffer.split_at_checked(used) {
        Some((copy, rest)) if copy == file && rest.iter().all(|x| *x == UNTOUCHED) => {
            println!(rt; " same {used}")
        }
        _ => println!(rt; " differs"),
    }
}

fn compare_file(rt: &HostRuntime, name: &[u8]) -> io::Result<()> {
    let input = str::from_utf8(name)
        .ok()
        .and_then(|path| File::open(rt, path).ok());
    let Some(mut input) = input else {
        return println!(rt; "unread");
    };
    let mut file = [0u8; 4097];
    let (n, _) = input::read_full(&mut input, &mut file);
    rt.write_all(name)?;
    match reader::read(&file[..n]) {
        Ok(_) => compare(rt, &file[..n]),
        Err(_) => println!(rt; " unreadable"),
    }
}

fn main(rt: HostRuntime) -> io::Result<()> {
    let mut name = [0u8; 4096];
    // By hand in each program: one function for all would be a public one, of whose files no clause can say anything.
    for k in 1..usize::MAX {
        match rt.arg(k, &mut name) {
            Ok(length) => compare_file(&rt, &name[..length])?,
            Err(FillError::TooLong) => println!(rt; "unread")?,
            Err(FillError::NotPresent) => break,
        }
    }
    Ok(())
}
