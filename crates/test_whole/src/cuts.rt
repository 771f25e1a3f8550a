//! Scripts and traces that are cut after each byte: the sums of the replies to all their parts. `tools/dev limits cuts`
//! compares the sums with those of a second model, and also cuts every stored text.

use crate::readers::Kind;
use std::alloc::Global;
use tp_text::{TextFault, Verdict};

/// A script and a trace of each version, with each kind of line, refused steps and wrong judgements; the sum of each.
const TEXTS: [(Kind, &[u8], u32); 5] = [
    (
        Kind::Script,
        b"nodes 2\ninsert 0 1 1\nbegin 1\nsupply 1\nbegin 1\nopen 0 4\nopen 0 4\nsend 0 1 3\nrecv 1 3\ndone 1\n\
close 0 4\nend 1 3\nready 0\nready 1\nstart\nstart\ndown 1\ngive 0\ngive 1\nup 1\ngive 0\njudge\nstart\ndown 1\ngive 1\n\
up 1\ngive 0\njudge\nsend 0 1 9\njudge\n",
        327_786_319,
    ),
    (
        Kind::Script,
        b"script 2\nnodes 1\nready 0\nreopen\nstart\ngive 0\njudge\nstart\ngive 0\njudge\nreopen\ninsert 0 12 0\n\
send 0 0 1 2\nsend 0 1 1 1\nrecv 0 1 2\nend 0 1 1\n",
        1_490_618_319,
    ),
    (
        Kind::Trace,
        b"trace 1\nnodes 2\nsend 0 1 3\nready 0\nrecv 1 3\nready 1\nend 1 3\nstart\ndown 1\ngive 1\nup 1\ngive 0\n\
judge not\nstart\ndown 1\ngive 1\nup 1\ngive 0\njudge ended 1\n",
        530_332_191,
    ),
    (
        Kind::Trace,
        b"trace 2\nnodes 1\ninsert 0 1 0\nready 0\nbegin 1\ndone 1\nstart\ngive 0\njudge not\nstart\ngive 0\n\
judge ended 1\nreopen\nready 0\nstart\ngive 0\njudge not\n",
        1_791_129_338,
    ),
    (
        Kind::Trace,
        b"trace 1\nnodes 1\nready 0\nstart\ngive 0\njudge ended 1\nsupply 123456\n",
        3_111_369_629,
    ),
];

/// A sum with one more byte (FNV-1a).
fn with_byte(sum: u32, byte: u8) -> u32 {
    (sum ^ u32::from(byte)).wrapping_mul(16_777_619)
}

/// The sum of what is written for each part of a text, from no byte to all, and of the exit status for its verdict.
fn sum_of_parts(alloc: Global, kind: Kind, text: &'static [u8]) -> Result<u32, TextFault> {
    let mut sum = 2_166_136_261;
    for count in 0..=text.len() {
        let mut reader = &text[..count];
        let mut written = Vec::new(alloc);
        let verdict = kind.answer(alloc, &mut reader, &mut written)?;
        for byte in &written {
            sum = with_byte(sum, *byte);
        }
        sum = with_byte(sum, if verdict == Verdict::Sound { 0 } else { 2 });
    }
    Ok(sum)
}

#[test]
fn each_part_of_a_text_has_the_reply_of_a_second_model(rt: HostRuntime) {
    for (kind, text, sum) in TEXTS {
        assert_eq!(rt; sum_of_parts(rt.alloc(), kind, text), Ok(sum), "{kind:?}");
    }
}
