// A count of comparisons, the line that is printed of one, and the lines of the comparisons that found a difference. Programs that compare the
// library with vectors use it.
#![tactic(auto)]

ghost use Rattle.std.specs.Prelude.{◌≡◌, IsOk, IsTrue, OnOk, OnErr, Some};
ghost use Rattle.tally.specs.Counting.{added, counted, line, right};

use std::ops::AddAssign;
use std::{fmt, io};

// How many comparisons were made, and how many of them found a difference.
#[derive(Clone, Copy, Debug, Default, PartialEq, Eq)]
pub struct Tally {
    pub compared: u64,
    pub wrong: u64,
}

impl Tally {
    // One comparison more.
    pub fn count(&mut self, right: bool)
        ensures { self.new ≡ counted self.old right }
    {
        self.compared = self.compared.wrapping_add(1);
        if !right {
            self.wrong = self.wrong.wrapping_add(1);
        }
    }

    // One comparison more, of `what` in the case `name`; a difference is printed at once.
    pub fn count_case(
        &mut self,
        rt: &impl Print,
        name: &str,
        what: &str,
        right: bool,
    ) -> io::Result<()>
        ensures counted { self.new ≡ counted self.old right }
        ensures silent { IsTrue right → IsOk result }
    {
        self.count(right);
        if right {
            return Ok(());
        }
        println!(rt; "WRONG in the case \"{name}\": {what}")
    }

    // Whether all was right; nothing compared is not right.
    pub fn is_right(self) -> bool
        ensures { result ≡ right self }
    {
        self.compared != 0 && self.wrong == 0
    }

    // Prints what was compared, how often, and whether all was right.
    fn print(self, rt: &impl Print, what: &str) -> io::Result<()> {
        println!(rt; "{what}: {self}")
    }

    // Prints `part`, the tally of what was compared, and adds it.
    pub fn tell(&mut self, rt: &impl Print, what: &str, part: Tally) -> io::Result<()>
        ensures ok { OnOk result (self.new ≡ added self.old part) }
        ensures err { OnErr result (self.new ≡ self.old) }
    {
        part.print(rt, what)?;
        *self += part;
        Ok(())
    }
}

impl AddAssign for Tally {
    ghost add_assign_gives = { λ t part sum. sum ≡ added t part };

    fn add_assign(&mut self, part: Tally) {
        self.compared = self.compared.wrapping_add(part.compared);
        self.wrong = self.wrong.wrapping_add(part.wrong);
    }
}

impl fmt::Display for Tally {
    ghost output = { λ t. Some (line t) };

    fn fmt<W: fmt::Write>(&self, f: &mut fmt::Formatter<W>) -> fmt::Result {
        if self.is_right() {
            write!(f, "{} compared, ok", self.compared)
        } else {
            write!(f, "{} compared, WRONG: {}", self.compared, self.wrong)
        }
    }
}
