// The direction of a demand and of a price formed for it.
ghost use Rattle.std.specs.Prelude.{◌≡◌};
ghost use Rattle.source.specs.Directions.{picked, toward};

#[derive(Clone, Copy, PartialEq, Eq)]
pub enum Direction {
    Up,
    Down,
}

impl Direction {
    /// The direction of a net, none where it is 0.
    pub fn of_net(net: i64) -> Option<Direction>
        ensures { result ≡ toward net }
    {
        match net {
            1.. => Some(Direction::Up),
            0 => None,
            _ => Some(Direction::Down),
        }
    }

    /// Of two values, one for each direction, the one of this.
    pub fn pick<T: Drop>(self, up: T, down: T) -> T
        ensures { result ≡ picked self up down }
    {
        match self {
            Direction::Up => up,
            Direction::Down => down,
        }
    }
}
