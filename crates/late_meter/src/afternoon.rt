// The calls of the book, each of which prints its line.
use crate::halt::Halt;
use crate::step::{Metered, Step};
use crate::tables::Told;
use metering::MeterValues;
use pricing::Finnish;
use settlement::Book;
use source::Table;
use units::{Quantity, ZoneNet};

#[derive(Drop)]
pub(crate) struct Afternoon<'a> {
    rt: &'a HostRuntime,
    book: Book,
}

impl Afternoon<'_> {
    pub(crate) fn start(
        rt: &HostRuntime,
        periods: usize,
        parties: usize,
    ) -> Result<Afternoon<'_>, Halt> {
        let book = Book::start(periods, parties)?;
        rt.println(Step::Started { periods, parties })?;
        Ok(Afternoon { rt, book })
    }

    pub(crate) fn price(&mut self, period: usize, told: &Told) -> Result<(), Halt> {
        let rows = told.rows();
        let table = Table {
            rows: &rows,
            zone_net: ZoneNet::new(told.zone_net).unwrap_or(ZoneNet::zero()),
            avoided: None,
        };
        let quarter = self.book.price(period, &table, &Finnish)?;
        self.rt.println(Step::Priced { period, quarter })?;
        Ok(())
    }

    /// A refused value is printed too.
    pub(crate) fn meter(
        &mut self,
        period: usize,
        party: usize,
        values: &MeterValues<'_>,
    ) -> Result<(), Halt> {
        let answer = self.book.meter(period, party, values);
        self.rt.println(Step::Metered(Metered {
            period,
            party,
            answer,
        }))?;
        Ok(())
    }

    pub(crate) fn close(&mut self, period: usize) -> Result<(), Halt> {
        self.book.close(period)?;
        self.rt.println(Step::Closed { period })?;
        Ok(())
    }

    pub(crate) fn settle(&mut self, party: usize) -> Result<(), Halt> {
        let payment = self.book.settle(party)?;
        let in_all = self.book.payments(party)?;
        self.rt.println(Step::Settled {
            party,
            payment,
            in_all,
        })?;
        Ok(())
    }
}
