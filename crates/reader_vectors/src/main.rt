// Runs the reader's call over takes that the writer wrote, and over bytes written by hand that 01 says an answer of, and prints what was compared.
#![tactic(auto)]

mod edges;
mod judge;
mod pictures;
mod plain;
mod refusals;
mod samples;
mod state;
mod takes;

use std::io;
use tally::Tally;

// The refusals.
fn run_refusals(rt: &impl Print, t: &mut Tally) -> io::Result<()> {
    t.tell(rt, "10, bytes that belong to no unit", refusals::stray(rt)?)?;
    t.tell(rt, "11, empty units", refusals::empty(rt)?)?;
    t.tell(rt, "12, bytes that no escape has", refusals::unescaped(rt)?)?;
    t.tell(rt, "13, other headers", refusals::headers(rt)?)?;
    t.tell(rt, "14, sets of no form", refusals::forms(rt)?)?;
    t.tell(
        rt,
        "15, other sets than the one held",
        refusals::others(rt)?,
    )?;
    t.tell(
        rt,
        "16, pictures while a set is missing",
        refusals::missing(rt)?,
    )?;
    t.tell(rt, "17, pictures that are too short", pictures::short(rt)?)?;
    t.tell(rt, "18, pictures of no form", pictures::formless(rt)?)?;
    t.tell(
        rt,
        "19, planes that are too short, and the call again",
        pictures::planes(rt)?,
    )
}

// The edges.
fn run_edges(rt: &impl Print, t: &mut Tally) -> io::Result<()> {
    t.tell(rt, "the end", edges::ending(rt)?)?;
    t.tell(rt, "places", edges::places(rt)?)?;
    t.tell(rt, "calls in turn", edges::walks(rt)?)?;
    t.tell(rt, "states that no call leaves", edges::impossible(rt)?)?;
    t.tell(rt, "the lengths of planes", edges::lengths(rt)?)
}

fn main(rt: HostRuntime) -> io::Result<()> {
    let mut t = Tally::default();
    t.tell(&rt, "takes in mono read back", takes::mono(&rt)?)?;
    t.tell(&rt, "takes in colour read back", takes::colour(&rt)?)?;
    run_refusals(&rt, &mut t)?;
    run_edges(&rt, &mut t)?;
    Tally::default().tell(&rt, "all", t)
}
