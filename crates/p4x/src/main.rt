// Hands the words, the files and the output to the top call, and ends with its status.
#![tactic(auto)]

use command_advice::{Advice, Heard, advice_on};
use p4x_cmd::p4x;
use p4x_io::{HostDesk, HostSink};
use std::process::ExitCode;
use std::rt::Env;
use std::{env, io};

/// The status where the system doesn't give the words. The top call never answers it.
const NO_WORDS: u8 = 9;

/// The words after the program's name.
fn words(rt: &(impl Env + AllocGlobal)) -> io::Result<Vec<String>> {
    let mut words = Vec::new(rt.alloc());
    for word in env::args(rt)?.skip(1) {
        words.push(word)?;
    }
    Ok(words)
}

fn main(rt: HostRuntime) -> ExitCode {
    match words(&rt) {
        Ok(words) => {
            let mut desk = HostDesk::new(&rt);
            let mut sink = Heard::new(HostSink::new(&rt));
            let status = p4x(rt.alloc(), &words, &mut desk, &mut sink);
            if let Some(advice) = advice_on(&words, status, sink.front()) {
                let _told = rt.eprintln(advice);
            }
            ExitCode::from(status)
        }
        Err(_) => {
            let _told = rt.eprintln(Advice::NoWords);
            ExitCode::from(NO_WORDS)
        }
    }
}
