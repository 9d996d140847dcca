// The four quarters of the Finnish note, as rows of a table.
use source::Row;

/// What is told of a quarter: each automatic cycle, the scheduled manual slot and the zone net in kW.
#[derive(Clone, Copy)]
pub(crate) struct Told {
    pub cycle: Row,
    pub scheduled: Row,
    pub zone_net: i64,
}

/// 15:00 to 15:45. The note's MWh are kW times a quarter of an hour, prices are cents per MWh.
pub(crate) const QUARTERS: [Told; 4] = [
    Told {
        cycle: Row {
            demand: 80_000,
            up: Some(10_000),
            ..Row::IDLE
        },
        scheduled: Row {
            demand: 200_000,
            up: Some(5_000),
            ..Row::IDLE
        },
        zone_net: 200_000,
    },
    Told {
        cycle: Row {
            demand: -80_000,
            down: Some(2_000),
            ..Row::IDLE
        },
        scheduled: Row {
            demand: -120_000,
            up: Some(4_000),
            down: Some(4_000),
        },
        zone_net: -400_000,
    },
    Told {
        cycle: Row {
            demand: -120_000,
            down: Some(4_000),
            ..Row::IDLE
        },
        scheduled: Row {
            demand: 200_000,
            up: Some(3_000),
            down: Some(3_000),
        },
        zone_net: -400_000,
    },
    Told {
        cycle: Row {
            demand: 200_000,
            up: Some(5_000),
            ..Row::IDLE
        },
        scheduled: Row {
            demand: 0,
            up: Some(10_000),
            ..Row::IDLE
        },
        zone_net: 400_000,
    },
];

impl Told {
    /// A row for each slot; the direct manual slots are idle.
    pub(crate) fn rows(&self) -> [Row; 228] {
        let mut rows = [self.cycle; 228];
        rows[225] = self.scheduled;
        rows[226] = Row::IDLE;
        rows[227] = Row::IDLE;
        rows
    }
}
