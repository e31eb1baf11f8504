// Each argument names a file with one call of the writer: the used length, the kind and its seventeen numbers, four
// bytes each, low byte first, then the buffer. A line is printed: the name, the answer, and the buffer then, in hex.
#![tactic(auto)]

ghost use Rattle.std.specs.Prelude.{◌<◌};

use std::env::{Env, FillError};
use std::fs::File;
use std::{array, io, str};
use tests::Refusal;

// Number k of a call.
fn number(call: &[u8; 76], k: usize) -> u32
    requires { k < 19 }
{
    let (words, _) = call.as_chunks::<4>();
    u32::from_le_bytes(words[k])
}

fn print_answer(rt: &impl Print, w: Result<usize, Refusal>) -> io::Result<()> {
    match w {
        Ok(end) => print!(rt; " used {end}"),
        Err(f) => print!(rt; " refused {} {}", f.reason.number(), f.place),
    }
}

fn print_bytes(rt: &impl Print, bytes: &[u8]) -> io::Result<()> {
    print!(rt; " ")?;
    for byte in bytes {
        print!(rt; "{byte:02x}")?;
    }
    println!(rt; "")
}

// The call, and what it came to.
// By hand: the kind is a number, any that the file says.
fn make(
    rt: &impl Print,
    buffer: &mut [u8],
    used: usize,
    kind: u32,
    xs: [u32; 17],
) -> io::Result<()> {
    let w = writer::append(buffer, used, kind, xs);
    print_answer(rt, w)?;
    print_bytes(rt, buffer)
}

fn replay_call(rt: &impl Print, name: &[u8], file: &mut [u8]) -> io::Result<()> {
    let Some((call, buffer)) = file.split_first_chunk_mut::<76>() else {
        return println!(rt; "short");
    };
    let used = number(call, 0);
    let kind = number(call, 1);
    let xs = array::from_fn(|i| number(call, i + 2));
    rt.write_all(name)?;
    make(rt, buffer, used as usize, kind, xs)
}

fn replay_file(rt: &HostRuntime, name: &[u8]) -> io::Result<()> {
    let input = str::from_utf8(name)
        .ok()
        .and_then(|path| File::open(rt, path).ok());
    let Some(mut input) = input else {
        return println!(rt; "unread");
    };
    let mut file = [0u8; 8192];
    let (n, _) = input::read_full(&mut input, &mut file);
    replay_call(rt, name, &mut file[..n])
}

fn main(rt: HostRuntime) -> io::Result<()> {
    let mut name = [0u8; 4096];
    // By hand in each program: one function for all would be a public one, of whose files no clause can say anything.
    for k in 1..usize::MAX {
        match rt.arg(k, &mut name) {
            Ok(length) => replay_file(&rt, &name[..length])?,
            Err(FillError::TooLong) => println!(rt; "unread")?,
            Err(FillError::NotPresent) => break,
        }
    }
    Ok(())
}
