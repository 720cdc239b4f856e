// perform_walks: carries out a script of calls from standard input, those of walking too, and prints each call with its answer.
#![tactic(auto)]

use reports::program::perform_walks;
use std::io;

fn main(rt: HostRuntime) -> io::Result<()> {
    perform_walks(&rt)
}
