// The printed result, to what takes bytes: a node's text is gathered in a buffer and written at once.
#![tactic(auto)]

ghost use Rattle.std.specs.Prelude.{◌≡◌, ◌+◌, ◌≤◌, ◌++◌, length, drop};
ghost use Rattle.arrayvec.specs.ArrayVec.{array_vec_len};
ghost use Rattle.places.specs.Finding.{node_place};
ghost use Rattle.report.specs.Text.{first_line};
ghost use Rattle.report.specs.Said.{verdict_by};
ghost use Rattle.report.specs.Printed.{printed};
ghost use Rattle.console.specs.Output.{text_of, IsWritten};
ghost use Rattle.console.specs.Walking.{walked, most_records};
ghost use Rattle.console.specs.Promise.{answer_text, PrintsWhatItTakes};

pub mod promises;

use arrayvec::ArrayVec;
use records::Kind;
use report::{Line, Numbered};
use std::io;
use std::io::{ErrorKind, Read, Write};
use verdict::Verdict;

// A node's text: its line, at most 40 bytes, and at most 256 lines of 10 bytes.
type NodeText = ArrayVec<u8, 2600>;

// A text, by as many writes as it takes; a write that takes nothing is a failure.
fn write_text<W: Write>(out: &mut W, text: &[u8]) -> io::Result<()>
    ensures { IsWritten result (W.contents out.old) (W.contents out.new) text.now }
{
    // By hand: std's `write_all` says nothing of what a failed write leaves, as `IsWritten` does.
    let mut rest = text;
    while !rest.is_empty() {
        match out.write(rest)? {
            0 => return Err(io::Error::from(ErrorKind::WriteZero)),
            count => rest = &rest[count..],
        }
    }
    Ok(())
}

// The first line of an answer.
fn print_first<W: Write, R: Numbered>(out: &mut W, a: Result<Verdict, R>) -> io::Result<()>
    ensures { IsWritten result (W.contents out.old) (W.contents out.new)
        (first_line (verdict_by R.number_of R.place_of a)) }
{
    write_text(out, report::first_line(a).as_slice())
}

// A line behind what the text has.
fn add_line(text: &mut NodeText, line: Line)
    requires { array_vec_len text.old + length line ≤ 2600 }
    ensures { text.new.items ≡ text.old.items ++ line }
{
    text.try_extend_from_slice(line.as_slice()).unwrap();
}

// The text of a node, in the room of another's.
// By hand: the kind is a number, since a file that no reader has seen may have any (`answer_text`).
fn node_text(k: u32, kind: u32, section: &[u32], text: &mut NodeText)
    requires { length section.now ≤ 256 }
    ensures { text.new.items ≡ text_of k kind section.now }
{
    let count = report::pair_count(section);
    text.clear();
    add_line(text, report::node_line(k, kind, count));
    for x in &section[..count] {
        add_line(text, report::pair_line(*x));
    }
}

// What stands behind the first n bytes.
fn behind(bytes: &[u8], n: usize) -> &[u8]
    ensures { result.now ≡ drop n bytes.now }
{
    bytes.get(n..).unwrap_or_default()
}

// The nodes of a file that passed, one behind another up to its end record, each with its section of the area. An area
// that has no section for a node ends it with an error, which none does in which a file passed.
fn print_nodes<W: Write>(out: &mut W, bytes: &[u8], area: &[u32]) -> io::Result<()>
    requires { length bytes.now ≤ 4096 }
    ensures { IsWritten result (W.contents out.old) (W.contents out.new)
        (walked most_records area.now (drop (node_place bytes.now 0) bytes.now) 0) }
{
    // By hand: the sizes differ from record to record, and the bytes, the sections and the number go on together.
    let mut rest = behind(bytes, places::node_place(bytes, 0));
    let mut sections = area;
    let mut text = NodeText::new();
    let mut k = 0;
    while let Some(first) = rest.first() {
        let kind = *first as u32;
        if kind == Kind::End.number() {
            return Ok(());
        }
        let Some((section, others)) = sections.split_first_chunk::<256>() else {
            return Err(io::Error::from(ErrorKind::InvalidInput));
        };
        node_text(k, kind, section, &mut text);
        write_text(out, text.as_slice())?;
        rest = behind(rest, records::size_of(kind));
        sections = others;
        k += 1;
    }
    Ok(())
}

// The printed result for a file: the first line of the answer and, after a pass, its nodes with the area that the
// analysis left. A file that passes has at most 4,096 bytes.
pub fn print_result<W: Write, R: Numbered>(
    out: &mut W,
    bytes: &[u8],
    a: Result<Verdict, R>,
    area: &[u32],
) -> io::Result<()>
    ensures { IsWritten result (W.contents out.old) (W.contents out.new)
        (answer_text bytes.now (verdict_by R.number_of R.place_of a) area.now) }
{
    print_first(out, a)?;
    if bytes.len() > 4096 {
        return Ok(());
    }
    match a {
        Ok(Verdict::Pass { .. }) => print_nodes(out, bytes, area),
        Ok(Verdict::Inconclusive(_)) => Ok(()),
        Err(_) => Ok(()),
    }
}

// The printed result for the bytes of a file, which it analyses.
pub fn analyse_and_print<W: Write>(out: &mut W, bytes: &[u8]) -> io::Result<()>
    ensures { IsWritten result (W.contents out.old) (W.contents out.new) (printed bytes.now) }
{
    let mut area = [0u32; 8192];
    let a = analysis::analyse(bytes, &mut area);
    print_result(out, bytes, a, &area)
}

// How reading and writing went.
#[derive(Drop)]
pub struct Outcome {
    pub read: io::Result<()>,
    pub written: io::Result<()>,
}

// Reads a file and prints the result for it. One byte more than a file may have is room enough: a longer input fills it
// too. An input that can't be read counts as one that ends there, which is then a cut file.
pub fn read_and_print<R: Read, W: Write>(input: &mut R, out: &mut W) -> Outcome
    ensures { PrintsWhatItTakes result.read result.written (R.remaining input.old) (R.remaining input.new)
        (W.contents out.old) (W.contents out.new) }
{
    let mut bytes = [0u8; 4097];
    let (n, read) = input::read_full(input, &mut bytes);
    let written = analyse_and_print(out, &bytes[..n]);
    Outcome { read, written }
}
