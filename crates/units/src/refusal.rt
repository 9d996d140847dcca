// What every refusal says of itself.
ghost use Rattle.std.specs.Prelude.{◌≡◌, ℕ};

/// A refusal, told by its number and its place.
pub trait Refusal: Copy {
    ghost number: { Self → ℕ };

    ghost place: { Self → ℕ };

    fn number(self) -> u16
        ensures { result ≡ number self };

    fn place(self) -> usize
        ensures { result ≡ place self };
}
