// How a run ends.

/// How a run ends, with the line of the token at which it is reported; `More` if the fuel was used up.
#[derive(Clone, Copy)]
pub enum Ending {
    Normal,
    Error { number: u16, line: u16 },
    Stack { line: u16 },
    Heap { line: u16 },
    More,
}
