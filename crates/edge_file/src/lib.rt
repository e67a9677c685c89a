// Reading an edge file: the records one after the other, and the line at the end.
#![tactic(auto, unfolding(crate::specs::EdgeFile::next, crate::specs::EdgeFile::ended, crate::specs::EdgeFile::line_from, crate::specs::Steps::line_on, crate::specs::Steps::step, crate::specs::Steps::due_of, crate::specs::Steps::is_refused))]

ghost use Rattle.std.specs.Prelude.{◌≡◌, []};
ghost use Rattle.edge_records.specs.Records.{record_of};
ghost use Rattle.checked.specs.Told.{number};
ghost use Rattle.edge_file.specs.EdgeFile.{bounds_of, next, call_of};
ghost use Rattle.edge_file.specs.Steps as Steps;
ghost use Rattle.edge_file.specs.Steps.{state};

use boxes::Bounds;
use checked::Refusal;
use edge_lines::Line;
use edge_records::{Edge, Record};

// Whether records are still to come, the end record was there, or a refusal ended the reading.
#[derive(Clone, Copy)]
pub enum Status {
    Open,
    Ended,
    Refused(Refusal),
}

// A file that is being read: the box of the edges so far, if there was one, and the number of the
// record that comes next, or of the one at which the reading ended.
#[derive(Clone, Copy)]
pub struct Reading {
    pub seen: Option<Bounds>,
    pub number: u64,
    pub status: Status,
}

// A reading after some bytes, and how many of them it took.
#[derive(Clone, Copy)]
pub struct Taken {
    pub reading: Reading,
    pub used: usize,
}

// The number of the next record.
fn next_number(k: u64) -> u64
    ensures { result ≡ next k }
{
    k.saturating_add(1)
}

impl Reading {
    // Before the first byte.
    pub fn begun() -> Reading
        ensures { state result ≡ Steps.begun }
    {
        Reading {
            seen: None,
            number: 1,
            status: Status::Open,
        }
    }

    // A refusal at record k ends the reading.
    fn stopped(self, refusal: Refusal, k: u64) -> Reading
        ensures { state result ≡ Steps.stopped (state self) (number refusal) k }
    {
        Reading {
            number: k,
            status: Status::Refused(refusal),
            ..self
        }
    }

    // One edge more.
    fn edge(self, e: Edge) -> Reading
        ensures { state result ≡ Steps.called_on (state self) (call_of e (bounds_of self.seen)) }
    {
        let bounds = self.seen.unwrap_or(Bounds::empty());
        match e.arc.extended(e.from, e.to, bounds) {
            Ok(bounds) => Reading {
                seen: Some(bounds),
                number: next_number(self.number),
                status: Status::Open,
            },
            Err(refusal) => self.stopped(refusal, self.number),
        }
    }

    // One record more, which bytes begin with.
    fn first_of(self, bytes: &[u8]) -> Reading
        ensures { state result ≡ Steps.record_on (state self) (record_of bytes.now) }
    {
        match edge_records::record_of(bytes) {
            Record::Edge(e) => self.edge(e),
            Record::End => Reading {
                status: Status::Ended,
                ..self
            },
            Record::Malformed => self.stopped(Refusal::MalformedFile, self.number),
        }
    }

    // One step: the bytes of one record, or what is left of a file that is cut.
    pub fn step(self, bytes: &[u8]) -> Reading
        ensures { state result ≡ Steps.step (state self) bytes.now }
    {
        match self.status {
            Status::Open => self.first_of(bytes),
            Status::Ended => self.stopped(Refusal::MalformedFile, next_number(self.number)),
            Status::Refused(_) => self,
        }
    }

    // How many of the bytes the next step takes.
    fn due(self, bytes: &[u8]) -> usize
        ensures { result ≡ Steps.due_of (state self) bytes.now }
    {
        match self.status {
            Status::Open => edge_records::size_of(bytes),
            Status::Ended | Status::Refused(_) => bytes.len(),
        }
    }

    // A refusal ended the reading.
    pub fn is_refused(self) -> bool
        ensures { result ≡ Steps.is_refused (state self) }
    {
        matches!(self.status, Status::Refused(_))
    }

    // Takes as many whole records as there are in some bytes.
    pub fn feed(self, bytes: &[u8]) -> Taken
        ensures { Steps.Fed (state self) bytes.now (state result.reading) result.used }
    {
        let mut reading = self;
        let mut used = 0;
        let mut size = reading.due(bytes);
        while size > 0 {
            reading = reading.step(&bytes[used..used + size]);
            used += size;
            size = reading.due(&bytes[used..]);
        }
        Taken { reading, used }
    }

    // The line where no more bytes come.
    pub fn finish(self) -> Line
        ensures { result ≡ Steps.line_on (state self) [] }
    {
        match self.status {
            Status::Open => edge_lines::refused_line(Refusal::MalformedFile, self.number),
            Status::Refused(refusal) => edge_lines::refused_line(refusal, self.number),
            Status::Ended => match self.seen {
                Some(b) => edge_lines::box_line(b.low, b.high, self.number),
                None => edge_lines::empty_line(),
            },
        }
    }
}
