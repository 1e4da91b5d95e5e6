//! Code: the pages that explain each message, and which of them words select.
#![tactic(auto)]

ghost use Rattle.std.specs.Prelude.{◌≡◌, option_map, slice_get};
ghost use Rattle.pascal_pages.specs.Asked.{asks, is_spelled, names_of};
ghost use Rattle.pascal_pages.specs.Pages.{pages};

mod endings;
mod refusals;
mod texts;
mod warnings;

pub use texts::COUNT;

/// A page: by what it is selected, and what is shown.
#[derive(Clone, Copy)]
pub struct Page {
    /// Its title, as `34 WrongType` or `Error 5: index out of range`.
    pub title: &'static str,
    /// The name or the words of what it is of, as `WrongType` or `index out of range`.
    pub words: &'static str,
    /// The number of what it explains, as `34`; its title, if that has none.
    pub number: &'static str,
    /// The number with its kind, as `refusal 34`; its title, if there is no number.
    pub named: &'static str,
    /// The beginning of its messages, as `error 34 WrongType`; its title, if it has no messages.
    pub told: &'static str,
    /// The text below its title.
    pub text: &'static str,
}

// Whether two texts have the same letters, small or capital.
fn is_spelled(a: &str, b: &str) -> bool
    ensures { result ≡ is_spelled a.now b.now }
{
    a.eq_ignore_ascii_case(b)
}

/// Whether words select a page: its title, its words, its number, that with its kind, or the beginning of its messages.
/// Upper and lower case are the same.
pub fn asks_for(page: &Page, words: &str) -> bool
    ensures { result ≡ asks (names_of page.now) words.now }
{
    is_spelled(words, page.title)
        || is_spelled(words, page.words)
        || is_spelled(words, page.number)
        || is_spelled(words, page.named)
        || is_spelled(words, page.told)
}

/// The page with this number, counted from 0 in their order; `None` past the last.
pub fn page_at(at: usize) -> Option<Page>
    ensures { option_map names_of result ≡ slice_get pages at }
{
    texts::numbered(at)
}
