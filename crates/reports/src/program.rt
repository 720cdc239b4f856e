// A script from standard input.
ghost use Rattle.calls.specs.declared.call.Vocabulary.TheVariants.{Building};
ghost use Rattle.reports.specs.Scripts.{Idle};
ghost use Rattle.std.specs.Prelude.{◌≡◌, IfOk};

use crate::opened::AnyJob;
use crate::printed::Told;
use crate::rooms::Rooms;
use crate::script::follow_in_place;
use crate::session::end;
use answers::answer::Answer;
use answers::report::report;
use calls::call::Vocabulary;
use std::alloc::AllocError;
use std::io;
use std::io::{BufRead, BufReader};
use tables::sheet::ENTRIES;
use told::closing::Closing;

// Prints a line with its answer.
fn print(rt: &HostRuntime, line: &str, answer: Answer) -> io::Result<()> {
    println!(rt; "{}", report(rt.alloc(), line, answer)?)
}

// Prints the close of a walk, where one was open, as if the line `close` stood there.
fn print_close(rt: &HostRuntime, closed: Option<Closing>) -> io::Result<()> {
    let Some(closing) = closed else {
        return Ok(());
    };
    print(rt, "close", Answer::Closed(closing))
}

// Prints what a line is told.
fn print_told(rt: &HostRuntime, line: &str, told: Option<Told>) -> io::Result<()> {
    let Some(told) = told else {
        return Ok(());
    };
    print_close(rt, told.closed)?;
    print(rt, line, told.answer)
}

// Follows the lines of standard input, a script of the vocabulary, and prints each call with its answer. Gives what is open
// at the end, and whether a line could not be read or printed; an error where there is no memory.
fn follow_lines(
    rt: &HostRuntime,
    vocabulary: Vocabulary,
) -> io::Result<(Option<AnyJob>, io::Result<()>)>
    ensures { IfOk result (λ r. vocabulary ≡ Building → Idle r.0) }
{
    let heap = rt.alloc();
    let mut sheet = vec![in heap; 0u16; ENTRIES]?;
    let lines = BufReader::new(heap, rt.stdin())?.lines(heap);
    let mut job = None;
    let mut rooms = Rooms::new();
    // Stays: no `?` in this loop, since what is open may hold a ticket, and is handed on behind it.
    let mut done = Ok(());
    for line in lines {
        match line {
            Ok(text) => {
                let line = text.as_str();
                let told = follow_in_place(
                    vocabulary,
                    &mut job,
                    &mut rooms,
                    sheet.as_mut_slice(),
                    line,
                );
                done = print_told(rt, line, told);
            }
            Err(error) => done = Err(error),
        }
        if done.is_err() {
            break;
        }
    }
    Ok((job, done))
}

/// Follows the lines of standard input, a script that builds and weighs, and prints each call with its answer. No walk is
/// ever open, and what is open at the end is let go like any value: only a job with no open walk may be.
pub fn perform(rt: &HostRuntime) -> io::Result<()> {
    let (_job, done) = follow_lines(rt, Vocabulary::Building)?;
    done
}

/// The same for a script that walks too. What is open at the end is let go, and its walk closed, also where a line cannot be
/// read or printed.
pub fn perform_walks(rt: &HostRuntime) -> io::Result<()> {
    let (job, done) = follow_lines(rt, Vocabulary::Walking)?;
    let closed = end(job);
    done?;
    print_close(rt, closed)
}
