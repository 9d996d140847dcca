// What is printed of the cases, and their count.
use crate::answers::Answers;
use crate::compare::{Both, Printed, compare_sheet};
use crate::day::Replies;
use crate::fault::Fault;
use crate::merit::{Done, Offer};
use crate::outcome::{LadderTallies, Tallies};
use crate::published::{Case, Stated};
use crate::rules::Euros;
use crate::side::Called;
use crate::writer::sheet_of;
use std::alloc::{AllocError, Global};
use std::io;

/// The counts so far: cases, differences, and of the generated sheets and the calls on ladders what became of them.
#[derive(Drop)]
pub(crate) struct Report<'a> {
    rt: &'a HostRuntime,
    cases: u64,
    differences: u64,
    tallies: Tallies,
    ladder_tallies: LadderTallies,
}

/// Whether what is stated of a named quarter or sheet is met.
#[derive(Clone, Copy)]
pub(crate) struct Met {
    pub alone: bool,
    pub with_incentive: bool,
}

// The lines of a text in one.
fn in_one(heap: Global, text: &str) -> Result<String, AllocError> {
    text.trim_end().replace(heap, '\n', ", ")
}

impl Report<'_> {
    pub(crate) fn new(rt: &HostRuntime) -> Report<'_> {
        Report {
            rt,
            cases: 0,
            differences: 0,
            tallies: Tallies::new(),
            ladder_tallies: LadderTallies::new(),
        }
    }

    pub(crate) fn heap(&self) -> Global {
        self.rt.alloc()
    }

    fn count(&mut self, same: bool) {
        self.cases = self.cases.saturating_add(1);
        if !same {
            self.differences = self.differences.saturating_add(1);
        }
    }

    // Ends a line with whether both agree.
    fn ended(&mut self, same: bool) -> io::Result<()> {
        self.count(same);
        self.rt
            .println(if same { "; the same" } else { "; A DIFFERENCE" })
    }

    fn printed(&mut self, printed: &Printed, same: bool) -> io::Result<()> {
        let rival = in_one(self.rt.alloc(), printed.rival.as_str())?;
        print!(self.rt; "{rival}")?;
        if !printed.agree() {
            let library = in_one(self.rt.alloc(), printed.library.as_str())?;
            print!(self.rt; "; the library: {library}")?;
        }
        self.ended(printed.agree() && same)
    }

    /// A named quarter, with what is stated of it with the incentive component.
    pub(crate) fn case(&mut self, case: &Case, with_incentive: &Stated) -> io::Result<()> {
        let quarter = case.quarter();
        let sheet = sheet_of(self.heap(), &quarter)?;
        let both = compare_sheet(self.heap(), sheet.as_slice())?;
        let met = Met {
            alone: case.is_met(&quarter, 0, &case.stated),
            with_incentive: case.is_met(&quarter, 1, with_incentive),
        };
        self.named(case.name, &both, met)
    }

    /// Two lines: the rulebooks alone, and with the incentive component.
    pub(crate) fn named(&mut self, name: &str, both: &Both, stated: Met) -> io::Result<()> {
        print!(self.rt; "{name}: ")?;
        self.printed(&both.alone, both.told_alike && stated.alone)?;
        print!(self.rt; "{name}, with the incentive component: ")?;
        self.printed(
            &both.with_incentive,
            both.quotes_alike && stated.with_incentive,
        )
    }

    /// One line: a rulebook alone, and with one and two incentive components.
    pub(crate) fn rulebook(
        &mut self,
        name: &str,
        answers: &Answers,
        stated: bool,
    ) -> io::Result<()> {
        print!(self.rt; "{name}, alone and with one and two incentive components: {answers}")?;
        self.ended(answers.agree() && stated)
    }

    pub(crate) fn payment(
        &mut self,
        name: &str,
        paid: &Replies,
        before: bool,
        stated: i64,
    ) -> io::Result<()> {
        let cents = paid.rival.ok().flatten().unwrap_or(0);
        print!(self.rt; "{name}: {}", Euros(cents))?;
        self.ended(before && paid.agree() && cents == stated)
    }

    // A line at the end of each span of so many cases.
    fn span(&self, what: &str, number: u64, size: u64) -> io::Result<()> {
        let done = number.saturating_add(1);
        if done.checked_rem(size) != Some(0) {
            return Ok(());
        }
        let first = done.saturating_sub(size);
        let differences = self.differences;
        println!(self.rt; "{what} {first} to {number}: differences so far {differences}")
    }

    pub(crate) fn call(&mut self, number: u64, replies: &Replies) -> io::Result<()> {
        let same = replies.agree();
        if !same && self.differences == 0 {
            println!(self.rt; "call {number} of the book: A DIFFERENCE")?;
        }
        self.count(same);
        self.span("calls of the book", number, 500)
    }

    /// Counts a generated quarter; the first that differs is printed with its sheet.
    pub(crate) fn generated(
        &mut self,
        number: u64,
        sheet: &[u8],
        both: &Both,
        table: bool,
    ) -> io::Result<()> {
        let same = table && both.agree();
        if !same && self.differences == 0 {
            println!(self.rt; "quarter {number}, its table alike: {table}")?;
            println!(self.rt; "quotes alike: {}", both.quotes_alike)?;
            for printed in [&both.alone, &both.with_incentive] {
                let rival = printed.rival.as_str();
                let library = printed.library.as_str();
                print!(self.rt; "{rival}the library:\n{library}")?;
            }
            println!(self.rt; "{sheet:?}")?;
        }
        self.count(same);
        self.tallies.add(both.outcome, both.effect);
        self.span("quarters", number, 100)
    }

    /// A named ladder: what the last of its calls answers, and what stands then.
    pub(crate) fn ladder(
        &mut self,
        name: &str,
        answers: &[Called],
        offers: &[Offer],
        answer: Result<Done, Fault>,
        stated: bool,
    ) -> io::Result<()> {
        print!(self.rt; "{name}: ")?;
        match answer {
            Ok(done) => print!(self.rt; "{done}")?,
            Err(fault) => print!(self.rt; "! {} {}", fault.refusal.number(), fault.place)?,
        }
        for offer in offers.iter() {
            print!(self.rt; ", {offer}")?;
        }
        let met = answers.last().is_some_and(|last| last.rival == answer);
        self.ended(answers.iter().all(Called::agree) && met && stated)
    }

    /// Counts a call on a ladder.
    pub(crate) fn ladder_call(&mut self, called: &Called) -> io::Result<()> {
        let number = self.ladder_tallies.calls();
        let same = called.agree();
        if !same && self.differences == 0 {
            println!(self.rt; "call {number} on ladders: A DIFFERENCE")?;
        }
        self.count(same);
        self.ladder_tallies.add(called.rival);
        self.span("calls on ladders", number, 5_000)
    }

    /// The closing lines, and whether no case differs.
    pub(crate) fn close(&self) -> io::Result<bool> {
        println!(self.rt; "other: {}", self.tallies.other)?;
        for tally in self.tallies.rows.iter() {
            println!(self.rt; "{}: {}", tally.outcome, tally.count)?;
        }
        println!(self.rt; "code 11 lifted: {}", self.tallies.lifted)?;
        println!(self.rt; "code 11 lowered: {}", self.tallies.lowered)?;
        println!(self.rt; "bids added: {}", self.ladder_tallies.added)?;
        println!(self.rt; "bids withdrawn: {}", self.ladder_tallies.withdrawn)?;
        for row in self.ladder_tallies.refused.iter() {
            println!(self.rt; "ladders, refusal {}: {}", row.refusal.number(), row.count)?;
        }
        println!(self.rt; "{} cases, {} differences", self.cases, self.differences)?;
        Ok(self.differences == 0)
    }
}
