// What document 02 asks to be measured: one thing done in two ways. Whether both give the same, and whether the one is as quick as asked, goes
// to standard output and is compared with what is stored; the times go to standard error.
#![tactic(auto)]

mod clock;
mod each_fluent;
mod performing;
mod planning;
mod report;
mod sheets;
mod writing;

use std::io;

fn main(rt: HostRuntime) -> io::Result<()> {
    performing::cases(&rt)?;
    planning::cases(&rt)
}
