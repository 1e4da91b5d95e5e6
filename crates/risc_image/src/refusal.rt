//! Why bytes are not an image.

ghost use Rattle.std.specs.Prelude.{◌≡◌};
ghost use Rattle.risc_image.specs.Refusal.{number_of};

use thiserror::Error;

/// The first check that the bytes fail.
#[derive(Clone, Copy, Debug, Error)]
pub enum ImageRefusal {
    /// One of the first four bytes, as far as they are present, differs from the magic.
    #[error("Magic")]
    Magic,
    /// Bytes are missing, of the header or of what its counts require.
    #[error("Truncated")]
    Truncated,
    /// Bytes follow what the counts require.
    #[error("Trailing")]
    Trailing,
    /// The file, the globals or a count is above its limit.
    #[error("TooLarge")]
    TooLarge,
    /// A number of the header or a row of a table is not as the format requires.
    #[error("BadTable")]
    BadTable,
}

impl ImageRefusal {
    /// The number of the refusal.
    pub fn number(self) -> u32
        ensures { result ≡ number_of self }
    {
        match self {
            ImageRefusal::Magic => 60,
            ImageRefusal::Truncated => 61,
            ImageRefusal::Trailing => 62,
            ImageRefusal::TooLarge => 63,
            ImageRefusal::BadTable => 64,
        }
    }
}
