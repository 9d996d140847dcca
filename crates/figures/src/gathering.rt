// Reading a source once for the figures of its quarter.
ghost use Rattle.std.specs.Prelude.{◌≡◌, ◌<◌};
ghost use Rattle.source.specs.Products.{manual_slot};
ghost use Rattle.source.specs.declared.slot.TheConstants.{SLOTS};
ghost use Rattle.figures.specs.Gathering.{AreFiguresOrUnreported, VolumeShowsCounting};
ghost use Rattle.figures.specs.steps.Gathering.{AreCyclesOrUnreported, IsSlotOrUnreported, side_from};

use crate::fault::UnreportedSlot;
use crate::quarter_figures::Figures;
use crate::side::Side;
use crate::span::span_between;
use crate::tally::{DirectionTally, Tally};
use crate::weighed::Weighed;
use source::{CYCLES, Direction, ManualProduct, PriceSource, weight_of};

fn weighed<S: PriceSource>(source: &S, slot: usize) -> Result<Weighed, UnreportedSlot>
    requires { slot < SLOTS }
    ensures { IsSlotOrUnreported (S.PriceSource.means source.now).slots slot result }
{
    let Ok(Some(reading)) = source.slot(slot) else {
        return Err(UnreportedSlot { slot });
    };
    Ok(Weighed {
        weight: weight_of(slot),
        reading,
    })
}

fn manual<S: PriceSource>(source: &S, product: ManualProduct) -> Result<Weighed, UnreportedSlot>
    ensures { IsSlotOrUnreported (S.PriceSource.means source.now).slots (manual_slot product) result }
{
    weighed(source, product.slot())
}

fn cycles<S: PriceSource>(source: &S) -> Result<Tally, UnreportedSlot>
    ensures { AreCyclesOrUnreported (S.PriceSource.means source.now).slots result }
{
    let mut tally = Tally::blank();
    for slot in 0..CYCLES {
        let cycle = weighed(source, slot)?;
        tally = tally.with(cycle);
    }
    Ok(tally)
}

// The manual slots of the quarter.
#[derive(Clone, Copy)]
struct ManualSlots {
    scheduled: Weighed,
    direct_up: Weighed,
    direct_down: Weighed,
}

impl ManualSlots {
    fn side(self, direction: Direction, tally: DirectionTally) -> Side
        ensures { result ≡ side_from direction tally self }
    {
        Side {
            cycles: tally.cycles(),
            scheduled: self.scheduled.manual(direction),
            direct_up: self.direct_up.manual(direction),
            direct_down: self.direct_down.manual(direction),
            formed: span_between(tally.lowest_formed, tally.highest_formed),
        }
    }
}

/// The figures of a quarter, each slot asked for once; refused where a slot is not reported.
pub fn figures_of<S: PriceSource>(source: &S) -> Result<Figures, UnreportedSlot>
    ensures figures_of_the_source { AreFiguresOrUnreported (S.PriceSource.means source.now) result }
    ensures volume_where_counting { VolumeShowsCounting (S.PriceSource.means source.now).slots result }
{
    let tally = cycles(source)?;
    let scheduled = manual(source, ManualProduct::Scheduled)?;
    let direct_up = manual(source, ManualProduct::DirectUp)?;
    let direct_down = manual(source, ManualProduct::DirectDown)?;
    let all = tally
        .noting(scheduled)
        .noting(direct_up)
        .noting(direct_down);
    let manual = ManualSlots {
        scheduled,
        direct_up,
        direct_down,
    };
    Ok(Figures {
        local_net: all.net,
        zone_net: source.zone_net(),
        avoided: source.avoided(),
        up: manual.side(Direction::Up, all.up),
        down: manual.side(Direction::Down, all.down),
    })
}
