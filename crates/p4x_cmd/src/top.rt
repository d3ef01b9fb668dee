// The top call.
ghost use Rattle.std.specs.Prelude.{◌≡◌, ◌⊎◌, map, string_bytes};
ghost use Rattle.command_words.specs.Words.{form, outputs_of};
ghost use Rattle.file_work.specs.Clauses.{Ended, OwnRose};
ghost use Rattle.file_work.specs.Phases.{line_view};
ghost use Rattle.p4x_cmd.specs.Calls.{OnTold, OnForm, AreTold, Done, Statuses, AcceptsAll, Usages, FilesLeft, IsEnd, WorksFor, inputs_in, outputs_in};

use crate::carry::carry;
use command_words::{Command, read_words};
use file_work::{Stop, say_end};
use p4x_io::{Desk, Sink};
use run14_cmd::run14;
use run16_cmd::run16;
use std::alloc::Global;

// The work of any words: the line that it prints, or why it stops.
fn work<D: Desk>(alloc: Global, words: &[String], desk: &mut D) -> Result<Vec<u8>, Stop>
    ensures { WorksFor (form (map string_bytes words.now)) (D.view desk.old) (D.view desk.new) (line_view result) }
{
    match read_words(words) {
        Some(Command::Carry(names)) => carry(alloc, desk, &names),
        Some(Command::Check(program)) => program_commands::check(alloc, desk, program),
        Some(Command::Order(program)) => program_commands::order(alloc, desk, program),
        Some(Command::Run14(names)) => run14(alloc, desk, &names),
        Some(Command::Run16(names)) => run16(alloc, desk, &names),
        None => Err(Stop::Usage),
    }
}

// The work, and then the line of its end.
fn run<D: Desk, K: Sink>(alloc: Global, words: &[String], desk: &mut D, out: &mut K) -> u8
    ensures { Ended (WorksFor (form (map string_bytes words.now)) (D.view desk.old) (D.view desk.new)) (K.view out.old) (K.view out.new)
        result }
{
    let end = work(alloc, words, desk);
    say_end(out, end)
}

/// Runs a command line over a desk of files, prints the line of its end to a sink, of `order` a line for each name, and answers the status.
///
/// The words are `carry PROGRAM ENTRIES CAPTURE --text F --sent F --report F [--ports F] [--passes N]`, with the options in any order,
/// `check PROGRAM`, `order PROGRAM`, `run14 PROGRAM ENTRIES CAPTURE --sent F --report F [--ports F] [--rule R] [--passes N]`, or
/// `run16 TEXT ENTRIES CAPTURE --sent F --report F [--ports F] [--passes N]`. N is 1 to 65,536 passes for each packet and what comes of it,
/// 256 where it isn't given; R is `sequential`, as where it isn't given, or `parallel`. The status is 0
/// where the program was carried or ran, or is accepted; 1 after a fault of a file that the words name or of the sink;
/// 2 where the words are no form of a command; 3 where the P4_14 program isn't taken: where its text breaks one of the rules L1 to L4, S1
/// and C1 to C28, and by `carry` also where it isn't of the one-table form; 4 by `carry` where the entries file has an octet, and by
/// `run14` and `run16` where it breaks one of the rules E1 to E12; 5 where the ports break one of the
/// rules P1 and P2, or the capture one of the rules K1 to K5; 6 where the program, the P4_16 text, the ports file or the capture, and by
/// `run14` and `run16` the entries file, is over its limit; 7 for want of memory; and 8 by `run16` where the P4_16 text breaks one of the
/// rules L1 to L4, S1 and T1 to T12. Of a program that is accepted `check` prints `accepted`, and `order` the names of its
/// headers, one a line, in the order in which they leave.
pub fn p4x<D: Desk, K: Sink>(alloc: Global, words: &[String], desk: &mut D, out: &mut K) -> u8
    // Status 0 of `carry`: the text reads as one program that carries the program of P4_14, and the files and the line are this run's; of
    // `run14` and `run16`: they are those of the run of the program.
    ensures carried { OnTold (form (map string_bytes words.now)) (D.view desk.old) (λ c files. AreTold (outputs_of c) (D.view desk.old)
        → result ≡ 0 → Done c files (D.view desk.new) (K.view out.old) (K.view out.new)) }
    // Which cause gives 0, 3, 4, 5, 6 and 8, where the desk tells the files that are read until it is found; 1 or 7 may come in their place.
    // A command has no statuses but its own, whatever the desk tells: 3 isn't `run16`'s, and 8 is its alone.
    ensures statuses { OnForm (form (map string_bytes words.now)) (λ c files. Statuses c (D.view desk.old) files result) }
    // All input files are taken and no own count rose: 0, or 7.
    ensures complete { OnTold (form (map string_bytes words.now)) (D.view desk.old) (λ c files. AcceptsAll c files
        → (OwnRose (inputs_in (form (map string_bytes words.now))) (outputs_in (form (map string_bytes words.now))) (D.view desk.old)
        (D.view desk.new) (K.view out.old) (K.view out.new) → ⊥)
        → (result ≡ 0) ⊎ (result ≡ 7)) }
    // Status 2 comes exactly where the words are no form, or 1 in its place where the sink failed; then the desk is as it was.
    ensures usage { Usages (form (map string_bytes words.now)) (D.view desk.old) (D.view desk.new) (K.view out.old) (K.view out.new) result }
    // Status 1 comes only where an own count rose.
    ensures fault { result ≡ 1 → OwnRose (inputs_in (form (map string_bytes words.now))) (outputs_in (form (map string_bytes words.now)))
        (D.view desk.old) (D.view desk.new) (K.view out.old) (K.view out.new) }
    // No file but the outputs changes, and what these hold by the status.
    ensures files { FilesLeft (form (map string_bytes words.now)) (D.view desk.old) (D.view desk.new) result }
    // What the end says is printed: one line, or of `order` the lines of its names; or a front of it, with status 1, where the sink failed.
    ensures line { Ended (IsEnd (form (map string_bytes words.now)) (D.view desk.old)) (K.view out.old) (K.view out.new) result }
    // All of it in one: the work ends with its files, and then its line is printed.
    ensures outcome { Ended (WorksFor (form (map string_bytes words.now)) (D.view desk.old) (D.view desk.new)) (K.view out.old)
        (K.view out.new) result }
{
    run(alloc, words, desk, out)
}
