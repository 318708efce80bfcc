// Runs the writer's start and next calls with the pictures of 01, at each limit, with each fault, and with the pictures of a list that the Rust
// encoded, and prints what was compared.
#![tactic(auto)]

mod call;
mod limits;
mod line;
mod list;
mod pictures;
mod plain;
mod refusals;
mod samples;
mod sum;
mod words;

use std::io;
use tally::Tally;

// The pictures of 01, and the limits.
fn run_pictures(rt: &(impl Print + AllocGlobal), t: &mut Tally) -> io::Result<()> {
    t.tell(rt, "the pictures of 01", pictures::paper(rt.alloc())?)?;
    t.tell(
        rt,
        "mono accepted with chroma planes that no picture has",
        pictures::unread(rt.alloc())?,
    )?;
    t.tell(
        rt,
        "sizes of 16,384 accepted, others refused with 1",
        limits::sizes(rt.alloc())?,
    )?;
    t.tell(
        rt,
        "widths and heights of each kind accepted, others refused with 3, 4 and 5",
        limits::shapes(rt.alloc())?,
    )
}

// The refusals.
fn run_refusals(rt: &(impl Print + AllocGlobal), t: &mut Tally) -> io::Result<()> {
    t.tell(rt, "depths refused with 2", refusals::depths(rt.alloc())?)?;
    t.tell(
        rt,
        "next calls in their session accepted, others refused with 6",
        refusals::sessions(rt.alloc())?,
    )?;
    t.tell(
        rt,
        "planes refused with 7 and 8",
        refusals::planes(rt.alloc())?,
    )?;
    t.tell(
        rt,
        "two faults refused with the first",
        refusals::order(rt.alloc())?,
    )
}

fn main(rt: HostRuntime) -> io::Result<()> {
    let mut t = Tally::default();
    run_pictures(&rt, &mut t)?;
    run_refusals(&rt, &mut t)?;
    t.tell(&rt, "the calls of the list", list::judge_input(&rt)?)?;
    Tally::default().tell(&rt, "all", t)
}
