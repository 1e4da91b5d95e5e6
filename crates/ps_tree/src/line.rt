// Lines of a text.

ghost use Rattle.std.specs.Prelude.{◌≡◌, ◌↔◌, ◌<◌, IsSome, IfSome};

/// The number of a line of a text, 1 to 65,535. `at` is where the token in question begins in the text; it has no
/// bearing on what the program does, and serves only to show the place.
#[derive(Clone, Copy)]
pub struct Line {
    pub number: u16,
    pub at: u32,
    ghost counted: { 0 < number },
}

impl Line {
    /// The line with this number, of the token at `at`; `None` if the number is 0.
    pub fn new(number: u16, at: u32) -> Option<Line>
        ensures counted { IsSome result ↔ (0 < number) }
        ensures number { IfSome result (λ line. line.number ≡ number) }
    {
        if number == 0 {
            return None;
        }
        Some(Line { number, at })
    }
}
