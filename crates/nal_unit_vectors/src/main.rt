// Runs nal_unit's escaping and unescaping against a list of escapes that the Rust wrote, all payloads of six bytes that the rule
// tells apart, and inputs that are no escape, and prints what was compared.
#![tactic(auto)]

mod faults;
mod list;
mod pair;
mod small;

use std::io;
use tally::Tally;

fn main(rt: HostRuntime) -> io::Result<()> {
    let mut all = Tally::default();
    all.tell(&rt, "the escapes of the list", list::judge_input(&rt)?)?;
    all.tell(
        &rt,
        "all payloads of six bytes 00, 01, 02, 03, 04 and FF",
        small::judge_all(),
    )?;
    all.tell(&rt, "faults refused with 12", faults::alone())?;
    all.tell(
        &rt,
        "faults at each place of 200 bytes refused with 12",
        faults::around(),
    )?;
    all.tell(&rt, "00 00 03 at the end unescaped", faults::at_end())?;
    Tally::default().tell(&rt, "all", all)
}
