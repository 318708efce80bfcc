// Runs golomb against the vectors of golomb.rs, the limits of the codes, and a list of codes that the Rust wrote, and prints
// what was compared.
#![tactic(auto)]

mod code;
mod limits;
mod list;
mod through;
mod vectors;

use std::io;
use tally::Tally;

fn main(rt: HostRuntime) -> io::Result<()> {
    let mut all = Tally::default();
    all.tell(
        &rt,
        "test_num_bits, by the lengths of codes",
        vectors::num_bits(),
    )?;
    all.tell(&rt, "test_exp_goloumb", vectors::exp_golomb())?;
    all.tell(&rt, "test_signed_exp_goloumb", vectors::signed_exp_golomb())?;
    all.tell(&rt, "the least and the largest numbers", limits::numbers())?;
    all.tell(
        &rt,
        "2^32 - 1 and -2^31 refused with 20",
        limits::without_code(),
    )?;
    all.tell(
        &rt,
        "31 leading zeros read, 32 refused with 22",
        limits::leading_zeros(),
    )?;
    all.tell(
        &rt,
        "an empty buffer refused with 21 and 22",
        limits::empty(),
    )?;
    all.tell(
        &rt,
        "the largest places refused with 21 and 22",
        limits::largest_places(),
    )?;
    all.tell(
        &rt,
        "plain bits read or refused with 22",
        limits::plain_bits(),
    )?;
    all.tell(&rt, "the codes of the list", list::judge_input(&rt)?)?;
    Tally::default().tell(&rt, "all", all)
}
