// Edge files from lines of text, read by the library. Each line that is printed names a file, or
// some files that differ in one number, and then has what `edgebox` prints of it.
//
// A line of the input has a name and a colon, then, each after a space, a letter, two numbers of
// six hexadecimal digits and the bytes of a file. The letter says in what the files from the first
// number up to the second, which is not one of them, differ: a `Difference`.
#![tactic(auto)]

ghost use Rattle.std.specs.Prelude.{◌<◌};

use edge_file::Reading;
use edge_lines::Line;
use std::alloc::Global;
use std::io;
use std::io::Read;

// As many bytes of the input are read.
const MOST: u64 = 65536;

// Room for two arcs and two ends: bytes of a file beyond it are left out.
const ROOM: usize = 220;

// In what the files of a line differ.
#[derive(Clone, Copy, Debug, PartialEq, Eq)]
enum Difference {
    // In nothing: it is one file.
    Nothing,
    // In how many of its bytes are there; zeros follow the last one.
    Size,
    // In the tag of the first record.
    Tag,
    // In the length that the first record announces.
    Length,
    // In which number of the first record, counted from 1, has the pattern of the last eight
    // bytes, which do not belong to the file.
    Number,
    // In nothing that a letter tells, though they are numbered.
    Unknown,
}

// The files of a line: the first one's bytes, and the numbers of the files.
#[derive(Drop)]
struct Files<'a> {
    name: &'a [u8],
    difference: Difference,
    from: u32,
    to: u32,
    bytes: Vec<u8>,
}

fn difference_of(letter: u8) -> Difference {
    match letter {
        b'w' => Difference::Nothing,
        b'c' => Difference::Size,
        b't' => Difference::Tag,
        b'l' => Difference::Length,
        b'p' => Difference::Number,
        _ => Difference::Unknown,
    }
}

// The value of a hexadecimal digit.
fn digit(b: u8) -> u8
    ensures { result < 16 }
{
    if b < b'a' {
        b % 16
    } else {
        (b - b'a' + 10) % 16
    }
}

// The number that two digits spell; 0 where one is missing.
fn pair(digits: &[u8]) -> u8 {
    match *digits {
        [high, low, ..] => 16 * digit(high) + digit(low),
        _ => 0,
    }
}

// The number that six digits spell.
fn number(digits: &[u8]) -> u32 {
    let mut n = 0;
    for two in digits.chunks_exact(2) {
        n = 0x100 * (n % 0x1_0000) + pair(two) as u32;
    }
    n
}

// The bytes of a file, two digits each, with spaces between some of them.
fn bytes_of(alloc: Global, text: &[u8]) -> io::Result<Vec<u8>> {
    let mut bytes = Vec::new(alloc);
    let mut rest = text;
    for _ in 0..text.len() {
        let taken = match rest.first() {
            None => break,
            Some(b' ') => 1,
            Some(_) => {
                if bytes.len() < ROOM {
                    bytes.push(pair(rest))?;
                }
                2
            }
        };
        rest = rest.get(taken..).unwrap_or(&[]);
    }
    Ok(bytes)
}

// What a line names, where it is one of files.
fn files_of<'a>(alloc: Global, line: &'a [u8]) -> io::Result<Option<Files<'a>>> {
    let colon = line.iter().position(|b| *b == b':').unwrap_or(line.len());
    let (name, rest) = line.split_at(colon);
    // The colon, the letter and the two numbers.
    let Some((first, rest)) = rest.split_first_chunk::<17>() else {
        return Ok(None);
    };
    let bytes = bytes_of(alloc, rest)?;
    Ok(Some(Files {
        name,
        difference: difference_of(first[2]),
        from: number(&first[4..10]),
        to: number(&first[11..17]),
        bytes,
    }))
}

// The file without its last eight bytes, which are put where its first record has the number n.
fn with_number(bytes: &mut Vec<u8>, n: usize) {
    if n < 1 || n > 13 {
        return;
    }
    if let Some(last) = bytes.last_chunk::<8>().copied() {
        bytes.truncate(bytes.len() - 8);
        for (to, from) in bytes.iter_mut().skip(8 * n - 5).zip(last) {
            *to = from;
        }
    }
}

// The file n of a line.
fn file_at(files: &Files, n: u32) -> io::Result<Vec<u8>> {
    let mut bytes = files.bytes.clone()?;
    let [low, high, ..] = n.to_le_bytes();
    match files.difference {
        Difference::Nothing | Difference::Unknown => {}
        Difference::Size => bytes.resize(ROOM.min(n as usize), 0)?,
        Difference::Tag => {
            if let Some(tag) = bytes.first_mut() {
                *tag = low;
            }
        }
        Difference::Length => {
            for (to, from) in bytes.iter_mut().skip(1).zip([low, high]) {
                *to = from;
            }
        }
        Difference::Number => with_number(&mut bytes, n as usize),
    }
    Ok(bytes)
}

// What is printed of a file.
fn line_of(file: &[u8]) -> Line {
    Reading::begun().feed(file).reading.finish()
}

// Files with the same line, from the first one up to `end`, which is not one of them.
fn tell(rt: &impl Print, files: &Files, first: u32, end: u32, line: &Line) -> io::Result<()> {
    if first < end {
        let last = end - 1;
        rt.write_all(files.name)?;
        if files.difference != Difference::Nothing {
            print!(rt; " {first}")?;
        }
        if first < last {
            let count = end - first;
            print!(rt; " to {last}, {count} files")?;
        }
        print!(rt; ": ")?;
        rt.write_all(line.text())?;
    }
    Ok(())
}

// Each file of a line.
fn tell_all(rt: &impl Print, files: &Files) -> io::Result<()> {
    let mut first = files.from;
    let mut line = line_of(&file_at(files, first)?);
    for n in files.from..files.to {
        let next = line_of(&file_at(files, n)?);
        if next.text() != line.text() {
            tell(rt, files, first, n, &line)?;
            first = n;
            line = next;
        }
    }
    tell(rt, files, first, files.to, &line)
}

fn main(rt: HostRuntime) -> io::Result<()> {
    let alloc = rt.alloc();
    let mut text = Vec::new(alloc);
    rt.stdin().take(MOST).read_to_end(&mut text)?;
    let mut rest = text.as_slice();
    for _ in 0..text.len() {
        if rest.is_empty() {
            break;
        }
        let end = rest.iter().position(|b| *b == b'\n').unwrap_or(rest.len());
        let (line, after) = rest.split_at(end);
        if let Some(files) = files_of(alloc, line)? {
            tell_all(&rt, &files)?;
        }
        rest = after.get(1..).unwrap_or(&[]);
    }
    Ok(())
}
