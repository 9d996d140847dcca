// The refusal of a buffer.
ghost use Rattle.writing.specs.Writes.{buffer_number, buffer_place};

use units::Refusal;

/// The buffer is too short to write in.
#[derive(Clone, Copy, Debug)]
pub struct ShortBuffer {
    pub needed: usize,
}

impl Refusal for ShortBuffer {
    ghost number = { buffer_number };

    ghost place = { buffer_place };

    fn number(self) -> u16 {
        15
    }

    fn place(self) -> usize {
        self.needed
    }
}
