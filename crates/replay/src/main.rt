// Each argument names a file. Its analysis in an area with room to spare, filled with aaaaaaaa: the printed result, and
// how many entries are zero and how many untouched; then, if the file is readable, in an area of just the needed size,
// whose sections must be the same, and in one that is an entry short: the first line and those two numbers.
#![tactic(auto)]

use std::env::{Env, FillError};
use std::fs::File;
use std::{io, str};
use tests::Refusal;
use verdict::Verdict;

// What an area is filled with.
const UNTOUCHED: u32 = 0xaaaa_aaaa;

// The first line of an answer, without its line feed.
fn print_answer(rt: &impl Print, a: Result<Verdict, Refusal>) -> io::Result<()> {
    let line = report::first_line(a);
    let text = line.as_slice();
    rt.write_all(text.strip_suffix(b"\n").unwrap_or(text))
}

// How many entries of the area are x.
fn count_of(area: &[u32], x: u32) -> usize {
    let mut count = 0;
    // By hand: with `filter` the program takes two and a half times the instructions here, since its loop is no vector's.
    for entry in area {
        count += usize::from(*entry == x);
    }
    count
}

// How many entries of the area are zero, and how many still aaaaaaaa.
fn print_counts(rt: &impl Print, area: &[u32]) -> io::Result<()> {
    let zero = count_of(area, 0);
    let untouched = count_of(area, UNTOUCHED);
    println!(rt; " zero {zero} untouched {untouched}")
}

// With room to spare: the printed result, then the counts.
fn replay_spare(rt: &impl Print, bytes: &[u8], area: &mut [u32]) -> io::Result<()> {
    let a = analysis::analyse(bytes, area);
    console::print_result(&mut io::writer(rt), bytes, a, area)?;
    print!(rt; "spare")?;
    print_counts(rt, area)
}

// With just so much room: what it is called, the answer and the counts.
fn replay_room(rt: &impl Print, name: &str, bytes: &[u8], area: &mut [u32]) -> io::Result<()> {
    print!(rt; "{name} ")?;
    print_answer(rt, analysis::analyse(bytes, area))?;
    print_counts(rt, area)
}

// With just the room that the file needs: whether its sections become the wanted ones.
fn replay_exact(rt: &impl Print, bytes: &[u8], wanted: &[u32], area: &mut [u32]) -> io::Result<()> {
    replay_room(rt, "exact", bytes, area)?;
    if &*area != wanted {
        println!(rt; "differs")?;
    }
    Ok(())
}

// How many entries the sections of a file's nodes have, unless it is refused.
fn needed_for(bytes: &[u8]) -> Option<usize> {
    reader::read(bytes).ok().map(|g| 256 * g.nodes as usize)
}

// The analysis of a file, in areas of each kind.
fn replay_bytes(rt: &impl Print, bytes: &[u8]) -> io::Result<()> {
    let mut spare = [UNTOUCHED; 8448];
    replay_spare(rt, bytes, &mut spare)?;
    let Some(needed @ 1..=8192) = needed_for(bytes) else {
        return Ok(());
    };
    let mut exact = [UNTOUCHED; 8192];
    replay_exact(rt, bytes, &spare[..needed], &mut exact[..needed])?;
    let mut short = [UNTOUCHED; 8192];
    replay_room(rt, "short", bytes, &mut short[..needed - 1])
}

// One byte more than a file may have is room enough: a longer file fills it too.
fn replay_file(rt: &HostRuntime, name: &[u8]) -> io::Result<()> {
    print!(rt; "file ")?;
    rt.write_all(name)?;
    println!(rt; "")?;
    let file = str::from_utf8(name)
        .ok()
        .and_then(|path| File::open(rt, path).ok());
    let Some(mut file) = file else {
        return println!(rt; "unread");
    };
    let mut buffer = [0u8; 4097];
    let (n, _) = input::read_full(&mut file, &mut buffer);
    replay_bytes(rt, &buffer[..n])
}

fn main(rt: HostRuntime) -> io::Result<()> {
    let mut name = [0u8; 4096];
    // By hand in each program: one function for all would be a public one, of whose files no clause can say anything.
    for k in 1..usize::MAX {
        match rt.arg(k, &mut name) {
            Ok(length) => replay_file(&rt, &name[..length])?,
            Err(FillError::TooLong) => continue,
            Err(FillError::NotPresent) => break,
        }
    }
    Ok(())
}
