//! The table of word-symbols.

ghost use Rattle.std.specs.Prelude.{◌≡◌, map};
ghost use Rattle.std.specs.Str.{str_eq_ignore_ascii_case};
ghost use Rattle.ps_scan.specs.Scanner as spec;
ghost use Rattle.ps_scan.specs.Tables.{word_kind as kind_of_word};

use crate::token::Kind;

// In the order of the alphabet.
const WORD_SYMBOLS: [(&[u8], Kind); 35] = [
    (b"and", Kind::And),
    (b"array", Kind::Array),
    (b"begin", Kind::Begin),
    (b"case", Kind::Case),
    (b"const", Kind::Const),
    (b"div", Kind::Div),
    (b"do", Kind::Do),
    (b"downto", Kind::Downto),
    (b"else", Kind::Else),
    (b"end", Kind::End),
    (b"file", Kind::File),
    (b"for", Kind::For),
    (b"function", Kind::Function),
    (b"goto", Kind::Goto),
    (b"if", Kind::If),
    (b"in", Kind::In),
    (b"label", Kind::Label),
    (b"mod", Kind::Mod),
    (b"nil", Kind::Nil),
    (b"not", Kind::Not),
    (b"of", Kind::Of),
    (b"or", Kind::Or),
    (b"packed", Kind::Packed),
    (b"procedure", Kind::Procedure),
    (b"program", Kind::Program),
    (b"record", Kind::Record),
    (b"repeat", Kind::Repeat),
    (b"set", Kind::Set),
    (b"then", Kind::Then),
    (b"to", Kind::To),
    (b"type", Kind::Type),
    (b"until", Kind::Until),
    (b"var", Kind::Var),
    (b"while", Kind::While),
    (b"with", Kind::With),
];

/// Whether two words are the same, ignoring case.
fn is_same(a: &[u8], b: &[u8]) -> bool
    ensures { result ≡ str_eq_ignore_ascii_case a.now b.now }
{
    a.eq_ignore_ascii_case(b)
}

/// The kind of the first spelling in a table that matches a word, ignoring case; otherwise that of a name.
fn find(mut table: &[(&[u8], Kind)], word: &[u8]) -> Kind
    ensures { result ≡ spec.find_word (map (λ e. (e.0.now, e.1)) table.entry.now) word.now }
{
    while let [entry, rest @ ..] = table {
        if is_same(entry.0, word) {
            return entry.1;
        }
        table = rest;
    }
    Kind::Name
}

/// The word-symbols with the first letter of a word.
fn beginning_as(word: &[u8]) -> &'static [(&'static [u8], Kind)]
    ensures { spec.find_word (map (λ e. (e.0.now, e.1)) result.now) word.now
        ≡ spec.find_word (map (λ e. (e.0.now, e.1)) WORD_SYMBOLS) word.now }
{
    if word.is_empty() {
        return &WORD_SYMBOLS;
    }
    let first = word[0].to_ascii_lowercase();
    match first {
        b'a' => &WORD_SYMBOLS[..2],
        b'b' => &WORD_SYMBOLS[2..3],
        b'c' => &WORD_SYMBOLS[3..5],
        b'd' => &WORD_SYMBOLS[5..8],
        b'e' => &WORD_SYMBOLS[8..10],
        b'f' => &WORD_SYMBOLS[10..13],
        b'g' => &WORD_SYMBOLS[13..14],
        b'i' => &WORD_SYMBOLS[14..16],
        b'l' => &WORD_SYMBOLS[16..17],
        b'm' => &WORD_SYMBOLS[17..18],
        b'n' => &WORD_SYMBOLS[18..20],
        b'o' => &WORD_SYMBOLS[20..22],
        b'p' => &WORD_SYMBOLS[22..25],
        b'r' => &WORD_SYMBOLS[25..27],
        b's' => &WORD_SYMBOLS[27..28],
        b't' => &WORD_SYMBOLS[28..31],
        b'u' => &WORD_SYMBOLS[31..32],
        b'v' => &WORD_SYMBOLS[32..33],
        b'w' => &WORD_SYMBOLS[33..],
        b'h' | b'j' | b'k' | b'q' | b'x' | b'y' | b'z' => &[],
        _ => &WORD_SYMBOLS,
    }
}

/// The kind of a word: that of a word-symbol, or of a name.
pub fn word_kind(word: &[u8]) -> Kind
    ensures { result ≡ kind_of_word word.now }
{
    find(beginning_as(word), word)
}
