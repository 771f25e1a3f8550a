//! Scripts and traces from readers that fail, are interrupted, slow or endless, and to writers that fail; and the program
//! with such streams.

use std::alloc::Global;
use std::io::{self, ErrorKind, Read, Write};
use std::rt::{Clock, Files};
use std::sync::Wait;
use std::thread::Threads;
use tp_cli::main_with;
use tp_text::{TextFault, Verdict, audit, sim};

/// Gives one byte a read: a text, and then a number of times the line `ready 0`. After the first reads some in a row fail
/// with a kind of error, and then `each_time` reads before each further byte and before the end.
#[derive(Drop)]
struct Stumbling {
    text: &'static [u8],
    again: u32,
    first: u32,
    left: u32,
    each_time: u32,
    fault: ErrorKind,
}

impl Stumbling {
    const fn new(text: &'static [u8], first: u32, left: u32, fault: ErrorKind) -> Self {
        Stumbling {
            text,
            again: 0,
            first,
            left,
            each_time: 0,
            fault,
        }
    }
}

impl Read for Stumbling {
    fn read(&mut self, buf: &mut [u8]) -> io::Result<usize> {
        if self.first > 0 {
            self.first -= 1;
        } else if self.left > 0 {
            self.left -= 1;
            return Err(self.fault.into());
        } else {
            self.left = self.each_time;
        }
        if self.text.is_empty() && self.again > 0 {
            self.text = b"ready 0\n";
            self.again -= 1;
        }
        match (self.text, buf.first_mut()) {
            ([first, rest @ ..], Some(place)) => {
                *place = *first;
                self.text = rest;
                Ok(1)
            }
            _ => Ok(0),
        }
    }
}

/// Takes one byte a write. Fails at one of its writes, counted from 0, or else when it is flushed.
#[derive(Drop)]
struct Failing {
    writes: u32,
    fails_at: u32,
}

impl Failing {
    const fn new(fails_at: u32) -> Self {
        Failing {
            writes: 0,
            fails_at,
        }
    }
}

impl Write for Failing {
    fn write(&mut self, buf: &[u8]) -> io::Result<usize> {
        if self.writes == self.fails_at {
            return Err(ErrorKind::StorageFull.into());
        }
        self.writes = self.writes.saturating_add(1);
        Ok(buf.len().min(1))
    }

    fn flush(&mut self) -> io::Result<()> {
        Err(ErrorKind::StorageFull.into())
    }
}

/// The verdict on a text, or its fault.
type Answer = Result<Verdict, TextFault>;

/// A kind of texts.
#[derive(Clone, Copy, Debug)]
pub(crate) enum Kind {
    Script,
    Trace,
}

/// A text of each kind, the number of reads until its end is reported, and the number of bytes written then.
const TEXTS: [(Kind, &[u8], u32, u32); 2] = [
    // node 0 pending 0 sent 0 received 0, the total, and quiet yes, after one ok
    (Kind::Script, b"nodes 1\nready 0\n", 17, 90),
    // steps 1, tasks 0 done 0, messages 0 received 0, not ended
    (Kind::Trace, b"trace 1\nnodes 1\nready 0\n", 25, 55),
];

impl Kind {
    pub(crate) fn answer<R: Read, W: Write>(
        self,
        alloc: Global,
        reader: &mut R,
        writer: &mut W,
    ) -> Answer {
        match self {
            Kind::Script => sim(alloc, reader, writer),
            Kind::Trace => audit(alloc, reader, writer),
        }
    }

    /// The verdict, and what is written.
    fn reply_to<R: Read>(self, alloc: Global, reader: &mut R) -> (Answer, Vec<u8>) {
        let mut written = Vec::new(alloc);
        let result = self.answer(alloc, reader, &mut written);
        (result, written)
    }

    /// The verdict, and the number of bytes written.
    fn answer_to<R: Read>(self, alloc: Global, reader: &mut R) -> (Answer, usize) {
        let (result, written) = self.reply_to(alloc, reader);
        (result, written.len())
    }

    /// The verdict if the reader is interrupted `each_time` times before each byte and before its end, and what is written.
    fn interrupt(self, alloc: Global, text: &'static [u8], each_time: u32) -> (Answer, Vec<u8>) {
        let mut reader = Stumbling::new(text, 0, each_time, ErrorKind::Interrupted);
        reader.each_time = each_time;
        self.reply_to(alloc, &mut reader)
    }

    /// The same of a text of `count` blanks.
    fn answer_blanks(self, alloc: Global, count: u64) -> (Answer, usize) {
        self.answer_to(alloc, &mut io::repeat(b' ').take(count))
    }
}

// The last read, after the last byte, finds the end.
#[test]
fn a_read_that_fails_is_told_and_an_interrupted_one_changes_nothing(rt: HostRuntime) {
    let interrupted = ErrorKind::Interrupted;
    for (kind, text, reads, bytes) in TEXTS {
        let wanted = (Ok(Verdict::Sound), bytes as usize);
        for read in 0..reads {
            let mut reader = Stumbling::new(text, read, 1, ErrorKind::Other);
            let result = kind.answer_to(rt.alloc(), &mut reader);
            assert_eq!(rt; result, (Err(TextFault::Read), 0), "{kind:?}, read {read}");
            let mut reader = Stumbling::new(text, read, 1, interrupted);
            let result = kind.answer_to(rt.alloc(), &mut reader);
            assert_eq!(rt; result, wanted, "{kind:?}, read {read}");
        }
    }
}

// 6,250 times before each of 16 or more bytes.
#[test]
fn a_hundred_thousand_interruptions_change_nothing(rt: HostRuntime) {
    for (kind, text, _, bytes) in TEXTS {
        let (result, written) = kind.interrupt(rt.alloc(), text, 6_250);
        let (_, plain) = kind.interrupt(rt.alloc(), text, 0);
        assert_eq!(rt;
            (result, written.len()),
            (Ok(Verdict::Sound), bytes as usize),
            "{kind:?}"
        );
        assert_eq!(rt; written.as_slice(), plain.as_slice(), "{kind:?}");
    }
}

// `syntax line 1` and the end of its line. One text a test: each takes a quarter of the time that a test may take on two
// slow processors. A byte more is `TooLong`, as contracts say.
#[test]
fn a_script_may_have_33_554_432_bytes(rt: HostRuntime) {
    let result = Kind::Script.answer_blanks(rt.alloc(), 33_554_432);
    assert_eq!(rt; result, (Ok(Verdict::Refused), 14));
}

#[test]
fn a_trace_may_have_33_554_432_bytes(rt: HostRuntime) {
    let result = Kind::Trace.answer_blanks(rt.alloc(), 33_554_432);
    assert_eq!(rt; result, (Ok(Verdict::Refused), 14));
}

// One line `ok`, 12,498 lines `refused 8 NoAction`, and 87 bytes of closing lines.
#[test]
fn a_text_may_come_in_a_hundred_thousand_reads(rt: HostRuntime) {
    let mut reader = Stumbling::new(b"nodes 1\nready 0\n", 0, 0, ErrorKind::Other);
    reader.again = 12_498;
    let result = Kind::Script.answer_to(rt.alloc(), &mut reader);
    assert_eq!(rt; result, (Ok(Verdict::Sound), 3 + 12_498 * 19 + 87));
}

#[test]
fn each_write_that_fails_is_told_and_the_flush(rt: HostRuntime) {
    for (kind, text, _, bytes) in TEXTS {
        for write in 0..=bytes {
            let mut reader = text;
            let result = kind.answer(rt.alloc(), &mut reader, &mut Failing::new(write));
            assert_eq!(rt; result, Err(TextFault::Write), "{kind:?}, write {write}");
        }
    }
}

/// Whether a script from this reader gives exactly this error line, with status 1.
fn reports<R: Threads + Wait + Sync + Clock + Files, I: Read>(
    rt: &R,
    alloc: Global,
    reader: &mut I,
    complaint: &[u8],
) -> bool {
    let (mut out, mut err) = (Vec::new(alloc), Vec::new(alloc));
    let words = ["tp", "sim"];
    let status = main_with(rt, alloc, &words, reader, &mut out, &mut err);
    status == 1 && out.is_empty() && err.as_slice() == complaint
}

/// Whether the program reports, with status 1, that it could not write what these arguments and a script of one line give.
fn reports_unwritten<R: Threads + Wait + Sync + Clock + Files>(
    rt: &R,
    alloc: Global,
    words: &[&str],
    fails_at: u32,
) -> bool {
    let (mut reader, mut out) = (b"nodes 1\n".as_slice(), Failing::new(fails_at));
    let mut err = Vec::new(alloc);
    let status = main_with(rt, alloc, words, &mut reader, &mut out, &mut err);
    status == 1 && err.as_slice() == b"fault write\n".as_slice()
}

#[test]
fn faults_of_reading(rt: HostRuntime) {
    let mut broken = Stumbling::new(b"", 0, 1, ErrorKind::Other);
    let mut endless = io::repeat(b' ');
    assert!(rt; reports(&rt, rt.alloc(), &mut broken, b"fault read\n"));
    assert!(rt; reports(&rt, rt.alloc(), &mut endless, b"fault too long\n"));
}

#[test]
fn faults_of_writing(rt: HostRuntime) {
    for words in [
        ["tp", "sim"].as_slice(),
        &["tp", "run", "reduce:4:0"],
        &["tp", "--help"],
    ] {
        assert!(rt; reports_unwritten(&rt, rt.alloc(), words, 0));
        assert!(rt; reports_unwritten(&rt, rt.alloc(), words, u32::MAX));
    }
}
