// What is said of energy that comes to no demand.
use crate::fault::EnergyFault;
use std::fmt;
use words::READ_AT_MOST;

/// A number in thousandths, without the zeros at its end.
#[derive(Clone, Copy)]
struct Thousandths(u64);

impl fmt::Display for Thousandths {
    fn fmt<W: fmt::Write>(&self, f: &mut fmt::Formatter<W>) -> fmt::Result {
        let whole = self.0 / 1_000;
        let rest = self.0 % 1_000;
        if rest == 0 {
            write!(f, "{whole}")
        } else if rest % 100 == 0 {
            write!(f, "{whole}.{}", rest / 100)
        } else if rest % 10 == 0 {
            write!(f, "{whole}.{:02}", rest / 10)
        } else {
            write!(f, "{whole}.{rest:03}")
        }
    }
}

/// The power that energy comes to, and in which slots.
#[derive(Clone, Copy)]
pub(crate) struct PowerOf(pub(crate) EnergyFault);

impl PowerOf {
    fn kw<W: fmt::Write>(self, f: &mut fmt::Formatter<W>) -> fmt::Result {
        let fault = self.0;
        let sign = if fault.negative { "-" } else { "" };
        let whole = fault.watts / 1_000;
        // A number that is read as READ_AT_MOST comes to so many kW at least.
        if whole >= READ_AT_MOST {
            let beyond = if fault.negative { "less" } else { "more" };
            return write!(f, "{sign}{READ_AT_MOST} kW or {beyond}");
        }
        if fault.part_more {
            let rest = fault.watts % 1_000;
            return write!(f, "{sign}{whole}.{rest:03}.. kW");
        }
        write!(f, "{sign}{} kW", Thousandths(fault.watts))
    }
}

impl fmt::Display for PowerOf {
    fn fmt<W: fmt::Write>(&self, f: &mut fmt::Formatter<W>) -> fmt::Result {
        self.kw(f)?;
        let EnergyFault { first, last, .. } = self.0;
        if first == last {
            write!(f, " in slot {first}")
        } else {
            write!(f, " in each of slots {first} to {last}")
        }
    }
}

/// Energy in MWh.
#[derive(Clone, Copy)]
struct Mwh {
    negative: bool,
    kwh: u64,
}

impl fmt::Display for Mwh {
    fn fmt<W: fmt::Write>(&self, f: &mut fmt::Formatter<W>) -> fmt::Result {
        if self.negative && self.kwh > 0 {
            write!(f, "-")?;
        }
        write!(f, "{} MWh", Thousandths(self.kwh))
    }
}

/// The nearest energies that come to a demand, of those that a text can have.
#[derive(Clone, Copy)]
pub(crate) struct Nearest(pub(crate) EnergyFault);

impl fmt::Display for Nearest {
    fn fmt<W: fmt::Write>(&self, f: &mut fmt::Formatter<W>) -> fmt::Result {
        let negative = self.0.negative;
        let below = Mwh {
            negative,
            kwh: self.0.below,
        };
        match self.0.above {
            Some(kwh) => {
                let above = Mwh { negative, kwh };
                write!(f, "the nearest that can be written are {below} and {above}")
            }
            None => write!(f, "the nearest that can be written is {below}"),
        }
    }
}
