// What the person at the terminal is told of each status, and what is kept of the printed line.
use crate::setting::words_of;
use command_advice::{Heard, advice_on};
use p4x_io::{MemorySink, Sink};
use std::alloc::Global;
use std::process::Abort;
use std::test::Fail;

/// The words of a run that carries a program.
const CARRY: &[u8] = b"carry p e c --ports o --text t --sent s --report r";

/// The words of a run.
const RUN: &[u8] = b"run14 p e c --ports o --sent s --report r";

/// The words of a run of a P4_16 text.
const RUN_TEXT: &[u8] = b"run16 p e c --ports o --sent s --report r";

/// The words of a command that reads a program.
const CHECK: &[u8] = b"check p";

/// What is told: the words, the status, the line, and the sentence; nothing is told where it is empty.
const TOLD: [(&[u8], u8, &[u8], &str); 23] = [
    (
        CARRY,
        3,
        b"refused C25\n",
        "p4x: p: the program has something that is left out of P4_14 here, or isn't of the one form that is carried yet (C25)",
    ),
    (
        CARRY,
        4,
        b"refused E1 at 1:1\n",
        "p4x: e:1:1: only an empty entries file is taken yet (E1)",
    ),
    (
        CARRY,
        5,
        b"refused P2 at 12:1\n",
        "p4x: o:12:1: the port is over 510 (P2)",
    ),
    (
        CARRY,
        5,
        b"refused K3\n",
        "p4x: c: the version of the capture isn't 2.4 (K3)",
    ),
    (
        CARRY,
        6,
        b"limit ports\n",
        "p4x: o: the file has more than 4,194,304 octets",
    ),
    (
        CARRY,
        6,
        b"limit capture\n",
        "p4x: c: the file has more than 1,073,741,824 octets",
    ),
    (
        b"",
        1,
        b"usag",
        "p4x: a file couldn't be read, made or written, or the line couldn't be printed",
    ),
    (
        CARRY,
        1,
        b"fault\n",
        "p4x: a file couldn't be read, made or written, or the line couldn't be printed; it reads p, e, c, o, and writes t, s, r",
    ),
    (CARRY, 0, b"carried 1 1 0\n", ""),
    (
        CHECK,
        3,
        b"refused S1 at 3:1\n",
        "p4x: p:3:1: no program has this here, or none ends here (S1)",
    ),
    (
        CHECK,
        3,
        b"refused C25\n",
        "p4x: p: the program has something that is left out of P4_14 here (C25)",
    ),
    (
        CHECK,
        6,
        b"limit program\n",
        "p4x: p: the file has more than 1,048,576 octets",
    ),
    (
        CHECK,
        1,
        b"fault\n",
        "p4x: a file couldn't be read, made or written, or the line couldn't be printed; it reads p",
    ),
    (CHECK, 0, b"accepted\n", ""),
    (
        RUN,
        3,
        b"refused C25\n",
        "p4x: p: the program has something that is left out of P4_14 here (C25)",
    ),
    (
        RUN,
        4,
        b"refused E3 at 2:1\n",
        "p4x: e:2:1: the table doesn't list that action (E3)",
    ),
    (
        RUN,
        5,
        b"refused P1 at 2:1\n",
        "p4x: o:2:1: the line isn't one decimal number (P1)",
    ),
    (
        RUN,
        6,
        b"limit entries\n",
        "p4x: e: the file has more than 16,777,216 octets",
    ),
    (
        RUN,
        1,
        b"fault\n",
        "p4x: a file couldn't be read, made or written, or the line couldn't be printed; it reads p, e, c, o, and writes s, r",
    ),
    (RUN, 0, b"ran 1 1 0\n", ""),
    (
        RUN_TEXT,
        8,
        b"refused L1 at 1:1\n",
        "p4x: p:1:1: no token begins with this octet (L1)",
    ),
    (
        RUN_TEXT,
        8,
        b"refused T4\n",
        "p4x: p: a literal doesn't fit its width (T4)",
    ),
    (
        RUN_TEXT,
        6,
        b"limit text\n",
        "p4x: p: the file has more than 16,777,216 octets",
    ),
];

/// Whether a row is told so.
fn is_told(alloc: Global, words: &[u8], status: u8, line: &[u8], told: &str) -> Result<bool, Fail> {
    let words = words_of(alloc, words)?;
    Ok(match advice_on(&words, status, line) {
        Some(advice) => format!(in alloc; "{advice}")?.as_str() == told,
        None => told.is_empty(),
    })
}

#[test]
fn each_status_is_told_with_its_file(rt: HostRuntime) -> Result<(), Fail> {
    for (words, status, line, told) in TOLD {
        assert!(&rt; is_told(rt.alloc(), words, status, line, told)?, "{told}");
    }
    Ok(())
}

#[test]
fn the_first_octets_that_were_printed_are_kept(rt: HostRuntime) -> Result<(), Fail> {
    let mut heard = Heard::new(MemorySink::new(rt.alloc(), 100)?);
    assert!(&rt; heard.front().is_empty());
    let _count = heard.write(b"refused ")?;
    let _count = heard.write(b"K1\n")?;
    assert!(&rt; heard.front() == b"refused K1\n".as_slice());
    let _count = heard.write(&[b'x'; 80])?;
    assert_eq!(&rt; heard.front().len(), 64);
    Ok(())
}
