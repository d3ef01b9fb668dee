// Faults: a call that fails, an output that can't be made, and a line that can't be printed whole. Each ends with status 1.
use crate::setting::{REPORT, SENT, TEXT, cut, ends_so, holds, inputs, name_of};
use p4x_io::MemoryDesk;
use std::alloc::Global;
use std::process::Abort;
use std::test::Fail;

/// The name of a row; the words; the file of which a read fails, and the number of the read; the file whose first append fails; the outputs
/// that there is room for; how many octets can be printed; what is printed; and of the text, the sent file and the report whether
/// it is not there (`-`), empty (`0`), whole (`=`), the report of `run14` (`c`) or the lines of the packets alone (`l`).
const FAULTS: &[u8] =
    b"carry: the first read of the program|carry p e c --text t --sent s --report r|p1||t s r|9|fault^|---
carry: the first read of the entries|carry p e c --text t --sent s --report r|e1||t s r|9|fault^|---
carry: the first read of the ports|carry p e c --text t --sent s --report r --ports o|o1||t s r|9|fault^|---
carry: the first append to the text|carry p e c --text t --sent s --report r||t|t s r|9|fault^|000
carry: the first append to the sent file|carry p e c --text t --sent s --report r||s|t s r|9|fault^|=00
carry: the first read of the capture|carry p e c --text t --sent s --report r|c1||t s r|9|fault^|=00
carry: the second read of the capture|carry p e c --text t --sent s --report r|c2||t s r|9|fault^|=00
carry: the third read of the capture|carry p e c --text t --sent s --report r|c3||t s r|9|fault^|==l
carry: the first append to the report|carry p e c --text t --sent s --report r||r|t s r|9|fault^|==0
carry: no room for the text|carry p e c --text t --sent s --report r|||s r|9|fault^|---
carry: no room for the sent file|carry p e c --text t --sent s --report r|||t r|9|fault^|0--
carry: no room for the report|carry p e c --text t --sent s --report r|||t s|9|fault^|00-
carry: a sink that is full after the work|carry p e c --text t --sent s --report r|||t s r|5|carri|===
carry: a sink that is full in the middle of a refusal|carry p n c --text t --sent s --report r|||t s r|9|refused E|---
run14: the first read of the program|run14 p e c --sent s --report r|p1||s r|9|fault^|---
run14: the first read of the entries|run14 p e c --sent s --report r|e1||s r|9|fault^|---
run14: the first read of the ports|run14 p e c --sent s --report r --ports o|o1||s r|9|fault^|---
run14: the first read of the capture|run14 p e c --sent s --report r|c1||s r|9|fault^|-00
run14: the first append to the sent file|run14 p e c --sent s --report r||s|s r|9|fault^|-00
run14: the first append to the report|run14 p e c --sent s --report r||r|s r|9|fault^|-=0
run14: no room for the sent file|run14 p e c --sent s --report r|||r|9|fault^|---
run14: no room for the report|run14 p e c --sent s --report r|||s|9|fault^|-0-
run14: a sink that is full after the work|run14 p e c --sent s --report r|||s r|5|ran 1|-=c
run16: the first read of the text|run16 x e c --sent s --report r|x1||s r|9|fault^|---
run16: the first read of the entries|run16 x e c --sent s --report r|e1||s r|9|fault^|---
run16: the first read of the capture|run16 x e c --sent s --report r|c1||s r|9|fault^|-00
run16: the first append to the sent file|run16 x e c --sent s --report r||s|s r|9|fault^|-00
run16: a sink that is full after the work|run16 x e c --sent s --report r|||s r|5|ran 1|-==
check: the first read|check q|q1|||9|fault^|---
order: the first read|order q|q1|||9|fault^|---
check: a sink that is full|check q||||5|accep|---
order: a sink that is full|order q||||5|ether|---";

/// The octets of an output by its letter; none where it isn't there.
fn held_by(letter: u8, whole: &'static [u8]) -> Option<&'static [u8]> {
    match letter {
        b'0' => Some(b""),
        b'=' => Some(whole),
        b'c' => Some(b"sent 3 14\nin 1\nout 1\ncut 0\n"),
        b'l' => Some(b"sent 3 14\n"),
        _ => None,
    }
}

/// Whether an output is as its letter says.
fn is_held(desk: &MemoryDesk, name: &str, letter: u8, whole: &'static [u8]) -> bool {
    match held_by(letter, whole) {
        Some(octets) => holds(desk, name, octets),
        None => desk.file(name).is_none(),
    }
}

/// Whether the outputs are as the letters say, and no other file changed.
fn are_held(desk: &MemoryDesk, letters: &[u8]) -> bool {
    match letters {
        [text, sent, report] => {
            is_held(desk, "t", *text, TEXT)
                && is_held(desk, "s", *sent, SENT)
                && is_held(desk, "r", *report, REPORT)
                && holds(desk, "else", b"x")
        }
        _ => false,
    }
}

/// The value of a digit.
fn digit_of(octet: u8) -> u8 {
    octet.saturating_sub(b'0')
}

/// Has a desk fail as the cells of a row say.
fn fail(desk: &mut MemoryDesk, read: &[u8], append: &[u8], outputs: &[u8]) -> Result<(), Fail> {
    if let [name, number] = read {
        desk.fail_read(name_of(&[*name]), u64::from(digit_of(*number)))?;
    }
    if !append.is_empty() {
        desk.fail_append(name_of(append), 1)?;
    }
    for letter in [b't', b's', b'r'] {
        if outputs.contains(&letter) {
            desk.room(name_of(&[letter]), 4096)?;
        }
    }
    Ok(())
}

/// Whether a row ends as it says.
fn is_so(alloc: Global, row: &[u8]) -> Result<bool, Fail> {
    let (words, row) = cut(row, b'|');
    let (read, row) = cut(row, b'|');
    let (append, row) = cut(row, b'|');
    let (outputs, row) = cut(row, b'|');
    let (room, row) = cut(row, b'|');
    let (line, letters) = cut(row, b'|');
    let mut desk = inputs(alloc)?;
    fail(&mut desk, read, append, outputs)?;
    let room = match room {
        [digit] => usize::from(digit_of(*digit)),
        _ => 0,
    };
    let line: &[u8] = if line == b"fault^".as_slice() {
        b"fault\n"
    } else {
        line
    };
    let ended = ends_so(alloc, words, &mut desk, room, 1, line)?;
    Ok(ended && are_held(&desk, letters))
}

#[test]
fn each_fault_leaves_what_was_done(rt: HostRuntime) -> Result<(), Fail> {
    let mut left = FAULTS;
    for _ in 0..FAULTS.len() {
        let (row, more) = cut(left, b'\n');
        let (name, cells) = cut(row, b'|');
        assert!(&rt; is_so(rt.alloc(), cells)?, "{}", name_of(name));
        if more.is_empty() {
            break;
        }
        left = more;
    }
    Ok(())
}
