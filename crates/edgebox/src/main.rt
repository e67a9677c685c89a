// Reads an edge file from standard input, and prints its line: the box of its edges, or why there
// is none.
#![tactic(auto)]

ghost use Rattle.std.specs.Prelude.{◌≡◌, ◌≤◌, length};
ghost use Rattle.edge_records.specs.Records.{shortest};
ghost use Rattle.edge_file.specs.Steps.{state};
ghost use Rattle.edgebox.specs.Input.{Took, is_due, HasRead};

use edge_file::Reading;
use edge_records::ARC;
use std::io;
use std::io::Read;

// The reading after the bytes of one read.
fn take(reading: Reading, bytes: &[u8]) -> Reading
    ensures { Took (state reading) bytes.now (state result) }
{
    reading.feed(bytes).reading
}

// Whether another read is due after that of some bytes, which the reading has taken.
fn is_due(reading: Reading, bytes: &[u8]) -> bool
    ensures { result ≡ is_due (state reading) bytes.now }
{
    !reading.is_refused() & (bytes.len() == ARC)
}

// Reads until the buffer is full, the input is over or a read fails, and says how many bytes it put
// at the buffer's start.
fn read_full<R: Read>(input: &mut R, buf: &mut [u8]) -> usize
    ensures { result ≤ length buf.new }
{
    let mut done = 0;
    while done < buf.len() {
        match input.read(&mut buf[done..]) {
            Ok(n) if n > 0 => done += n,
            _ => return done,
        }
    }
    done
}

// Reads record by record until the input is over, or a refusal ends the reading. Another record can
// follow only an edge's, so a read asks for as many bytes as that has: no more than one record is
// in memory, and the bytes after the end record are in its read. Nothing says that an input ends,
// so the reads are counted up to a number that no run reaches.
fn read_all<R: Read>(input: &mut R, buf: &mut [u8]) -> Reading
    requires { length buf.old ≡ shortest }
    ensures { HasRead (state result) }
{
    let mut reading = Reading::begun();
    for _ in 0..u64::MAX {
        let count = read_full(input, buf);
        let bytes = &buf[..count];
        reading = take(reading, bytes);
        if !is_due(reading, bytes) {
            break;
        }
    }
    reading
}

fn main(rt: HostRuntime) -> io::Result<()> {
    let mut buf = [0u8; ARC];
    let reading = read_all(&mut rt.stdin(), &mut buf);
    let line = reading.finish();
    rt.write_all(line.text())
}
