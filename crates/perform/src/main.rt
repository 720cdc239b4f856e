// perform: carries out a script of calls from standard input, and prints each call with its answer.
#![tactic(auto)]

use reports::program::perform;
use std::io;

fn main(rt: HostRuntime) -> io::Result<()> {
    perform(&rt)
}
