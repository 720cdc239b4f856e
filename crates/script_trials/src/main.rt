// A script of random calls, whose answers were made by the independent implementation in reference/.
#![tactic(auto)]
// Stays: the text of a program stands again where it is run on other lines, since a crate has one standard input.

use reports::program::perform;
use std::io;

fn main(rt: HostRuntime) -> io::Result<()> {
    perform(&rt)
}
