//! The token or the separator at the front of bytes.

ghost use Rattle.std.specs.Prelude.{◌≡◌, ◌+◌, ◌*◌, ◌-◌, ◌^◌, ◌<◌, ◌≤◌, ◌↔◌, IsTrue, true, false, length, drop};
ghost use Rattle.std.specs.Prelude.{slice_index, Ok, IfOk, IfErr, IfSome};
ghost use Rattle.ps_scan.specs.Scanner as spec;
ghost use Rattle.ps_scan.specs.Separators.{is_blank as blank};

use crate::refusal::ScanFault;
use crate::token::Kind;
use crate::values::small_value;
use crate::words::word_kind;

/// What is at the front of the bytes: a token of this kind, or a separator if there is no kind; and its length in
/// bytes.
#[derive(Clone, Copy)]
pub struct Lexeme {
    pub kind: Option<Kind>,
    pub length: usize,
}

/// A fault at the front of the bytes: how many bytes come before the reported ones, and how many are reported.
#[derive(Clone, Copy)]
pub struct FaultAhead {
    pub fault: ScanFault,
    pub ahead: usize,
    pub length: usize,
}

/// A fault at the very front of the bytes.
fn fault_of(fault: ScanFault, length: usize) -> FaultAhead
    ensures { result ≡ record { fault = fault; ahead = 0; length = length } }
{
    FaultAhead {
        fault,
        ahead: 0,
        length,
    }
}

/// What is at the front of the bytes: the longest token, or a separator; or the fault there.
#[tactic(auto, unfolding(crate::specs::Scanner::front))]
pub fn front(text: &[u8]) -> Result<Lexeme, FaultAhead>
    requires { 0 < length text.now }
    ensures value { result ≡ spec.front text.now }
    ensures within { IfOk result (λ found. (1 ≤ found.length) × (found.length ≤ length text.now)) }
    ensures placed { IfErr result (λ found. found.ahead + found.length ≤ length text.now) }
{
    if let Some(kind) = parenthesis(text) {
        return Ok(Lexeme {
            kind: Some(kind),
            length: 1,
        });
    }
    let first = text[0];
    if is_blank(first) {
        Ok(Lexeme {
            kind: None,
            length: 1,
        })
    } else if first.is_ascii_alphabetic() {
        Ok(word(text))
    } else if first.is_ascii_digit() {
        number(text)
    } else if first == b'\'' {
        string(text)
    } else if first == b'{' {
        comment(1, text)
    } else if first == b'(' && byte_at(text, 1) == b'*' {
        comment(2, text)
    } else {
        symbol(text)
    }
}

/// The kind of a parenthesis at the front of the bytes, if it and the byte after it show that nothing else begins
/// there. Parentheses often follow one another, and testing for them first is faster.
#[tactic(auto, using(crate::proofs::Parentheses::front_closing, crate::proofs::Parentheses::front_opening))]
fn parenthesis(text: &[u8]) -> Option<Kind>
    requires { 0 < length text.now }
    ensures { IfSome result (λ kind. spec.front text.now ≡ Ok (spec.token_of 1 kind)) }
{
    if text[0] == b')' {
        Some(Kind::RightParen)
    } else if text[0] == b'(' && byte_at(text, 1) == b'(' {
        Some(Kind::LeftParen)
    } else {
        None
    }
}

/// The byte at an index, or 0 past the end, which begins nothing.
fn byte_at(text: &[u8], at: usize) -> u8
    ensures value { result ≡ slice_index text.now at }
    ensures within { 0 < result → at < length text.now }
{
    if at < text.len() { text[at] } else { 0 }
}

/// Whether the byte is a separator by itself.
fn is_blank(byte: u8) -> bool
    ensures { result ≡ blank byte }
{
    byte == b' ' || (byte == b'\t' || (byte == b'\r' || byte == b'\n'))
}

/// A name or a word-symbol.
#[tactic(auto, unfolding(crate::specs::Scanner::word))]
fn word(text: &[u8]) -> Lexeme
    requires { 0 < spec.word_len text.now }
    ensures value { result ≡ spec.word text.now }
    ensures within { (1 ≤ result.length) × (result.length ≤ length text.now) }
{
    let length = word_len(text);
    Lexeme {
        kind: Some(word_kind(&text[..length])),
        length,
    }
}

/// The number of letters and digits at the front.
fn word_len(text: &[u8]) -> usize
    ensures value { result ≡ spec.word_len text.now }
    ensures within { result ≤ length text.now }
{
    for (at, byte) in text.iter().enumerate() {
        if !byte.is_ascii_alphanumeric() {
            return at;
        }
    }
    text.len()
}

/// A number.
#[tactic(auto, unfolding(crate::specs::Scanner::number))]
fn number(text: &[u8]) -> Result<Lexeme, FaultAhead>
    requires { 0 < spec.digits_len text.now }
    ensures value { result ≡ spec.number text.now }
    ensures within { IfOk result (λ found. (1 ≤ found.length) × (found.length ≤ length text.now)) }
    ensures placed { IfErr result (λ found. found.ahead + found.length ≤ length text.now) }
{
    let length = digits_len(text);
    let after = &text[length..];
    let behind_digits = real_len(after);
    if 0 < behind_digits {
        return Err(fault_of(ScanFault::RealNumber, length + behind_digits));
    }
    if byte_at(after, 0).is_ascii_alphabetic() {
        return Err(FaultAhead {
            fault: ScanFault::SeparatorMissing,
            ahead: length,
            length: word_len(after),
        });
    }
    if small_value(&text[..length]).is_none() {
        return Err(fault_of(ScanFault::NumberTooLarge, length));
    }
    Ok(Lexeme {
        kind: Some(Kind::Number),
        length,
    })
}

/// The number of digits at the front.
fn digits_len(text: &[u8]) -> usize
    ensures value { result ≡ spec.digits_len text.now }
    ensures within { result ≤ length text.now }
{
    for (at, byte) in text.iter().enumerate() {
        if !byte.is_ascii_digit() {
            return at;
        }
    }
    text.len()
}

/// The length of a real literal after its first digits: that of its fraction and its scale, or 0 if it has neither.
#[tactic(auto, unfolding(crate::specs::Scanner::real_len))]
fn real_len(text: &[u8]) -> usize
    ensures value { result ≡ spec.real_len text.now }
    ensures within { result ≤ length text.now }
{
    let fraction = fraction_len(text);
    fraction + scale_len(&text[fraction..])
}

/// The length of a fraction, with its point, or 0.
#[tactic(auto, unfolding(crate::specs::Scanner::fraction_len))]
fn fraction_len(text: &[u8]) -> usize
    ensures value { result ≡ spec.fraction_len text.now }
    ensures within { result ≤ length text.now }
{
    if byte_at(text, 0) == b'.' && byte_at(text, 1).is_ascii_digit() {
        1 + digits_len(&text[1..])
    } else {
        0
    }
}

/// The length of a scale, with its letter and its sign, or 0.
#[tactic(auto, unfolding(crate::specs::Scanner::scale_len))]
fn scale_len(text: &[u8]) -> usize
    ensures value { result ≡ spec.scale_len text.now }
    ensures within { result ≤ length text.now }
{
    scale_by(1 + sign_len(byte_at(text, 1)), text)
}

/// The length of a scale whose letter and sign take `opening` bytes, or 0.
#[tactic(auto, unfolding(crate::specs::Scanner::scale_by))]
fn scale_by(opening: usize, text: &[u8]) -> usize
    ensures value { result ≡ spec.scale_by opening text.now }
    ensures within { result ≤ length text.now }
{
    if byte_at(text, 0).to_ascii_lowercase() == b'e' && byte_at(text, opening).is_ascii_digit() {
        opening + digits_len(&text[opening..])
    } else {
        0
    }
}

/// The length of a sign: 1, or 0 if there is none.
fn sign_len(byte: u8) -> usize
    ensures value { result ≡ spec.sign_len byte }
    ensures within { result ≤ 1 }
{
    if byte == b'+' || byte == b'-' { 1 } else { 0 }
}

/// A string, from its opening apostrophe.
#[tactic(auto, unfolding(crate::specs::Scanner::string))]
fn string(text: &[u8]) -> Result<Lexeme, FaultAhead>
    requires { 0 < length text.now }
    ensures value { result ≡ spec.string text.now }
    ensures within { IfOk result (λ found. (1 ≤ found.length) × (found.length ≤ length text.now)) }
    ensures placed { IfErr result (λ found. found.ahead + found.length ≤ length text.now) }
{
    let Some(length) = string_end(&text[1..]) else {
        return Err(fault_of(ScanFault::OpenString, 1));
    };
    if length == 2 {
        return Err(fault_of(ScanFault::EmptyString, length));
    }
    Ok(Lexeme {
        kind: Some(Kind::Text),
        length,
    })
}

/// The length of a string, given the bytes after its opening apostrophe.
fn string_end(text: &[u8]) -> Option<usize>
    requires { length text.now < 2 ^ 63 }
    ensures value { result ≡ spec.string_end false 1 text.now }
    ensures within { IfSome result (λ end. (2 ≤ end) × (end ≤ length text.now + 1)) }
{
    // Whether the byte before was an apostrophe that closes the string unless another follows.
    let mut is_pending = false;
    for (at, byte) in text.iter().enumerate() {
        if *byte == b'\'' {
            is_pending = !is_pending;
        } else if is_pending {
            return Some(at + 1);
        } else if *byte == b'\n' || *byte == b'\r' {
            return None;
        }
    }
    if is_pending {
        Some(text.len() + 1)
    } else {
        None
    }
}

/// A comment whose opening has `opening` bytes.
#[tactic(auto, unfolding(crate::specs::Scanner::comment))]
fn comment(opening: usize, text: &[u8]) -> Result<Lexeme, FaultAhead>
    requires some { 1 ≤ opening }
    requires within { opening ≤ length text.now }
    ensures value { result ≡ spec.comment opening text.now }
    ensures within { IfOk result (λ found. (1 ≤ found.length) × (found.length ≤ length text.now)) }
    ensures placed { IfErr result (λ found. found.ahead + found.length ≤ length text.now) }
{
    match comment_end(&text[opening..]) {
        Some(length) => Ok(Lexeme {
            kind: None,
            length: opening + length,
        }),
        None => Err(fault_of(ScanFault::OpenComment, opening)),
    }
}

/// The length of a comment after its opening.
fn comment_end(text: &[u8]) -> Option<usize>
    ensures value { result ≡ spec.comment_end false 0 text.now }
    ensures within { IfSome result (λ end. end ≤ length text.now) }
{
    let mut is_after_star = false;
    for (at, byte) in text.iter().enumerate() {
        if *byte == b'}' || (*byte == b')' && is_after_star) {
            return Some(at + 1);
        }
        is_after_star = *byte == b'*';
    }
    None
}

/// A symbol: that of the first two bytes, otherwise that of the first.
#[tactic(auto, unfolding(crate::specs::Scanner::symbol))]
fn symbol(text: &[u8]) -> Result<Lexeme, FaultAhead>
    requires { 0 < length text.now }
    ensures value { result ≡ spec.symbol text.now }
    ensures within { IfOk result (λ found. (1 ≤ found.length) × (found.length ≤ length text.now)) }
    ensures placed { IfErr result (λ found. found.ahead + found.length ≤ length text.now) }
{
    let first = text[0];
    if let Some(kind) = pair(first, byte_at(text, 1)) {
        return Ok(Lexeme {
            kind: Some(kind),
            length: 2,
        });
    }
    match single(first) {
        Some(kind) => Ok(Lexeme {
            kind: Some(kind),
            length: 1,
        }),
        None => Err(fault_of(ScanFault::BadByte, 1)),
    }
}

/// The kind of a symbol of two bytes.
#[tactic(auto, unfolding(crate::specs::Scanner::pair))]
fn pair(first: u8, second: u8) -> Option<Kind>
    ensures value { result ≡ spec.pair first second }
    ensures within { IfSome result (λ _. 0 < second) }
{
    match (first, second) {
        (b'<', b'>') => Some(Kind::NotEqual),
        (b'<', b'=') => Some(Kind::LessEqual),
        (b'>', b'=') => Some(Kind::GreaterEqual),
        (b'(', b'.') => Some(Kind::LeftBracket),
        (b'.', b')') => Some(Kind::RightBracket),
        (b'.', b'.') => Some(Kind::DotDot),
        (b':', b'=') => Some(Kind::Assign),
        _ => None,
    }
}

/// The kind of a symbol of one byte.
#[tactic(auto, unfolding(crate::specs::Scanner::single))]
fn single(byte: u8) -> Option<Kind>
    ensures { result ≡ spec.single byte }
{
    match byte {
        b'+' => Some(Kind::Plus),
        b'-' => Some(Kind::Minus),
        b'*' => Some(Kind::Star),
        b'/' => Some(Kind::Slash),
        b'=' => Some(Kind::Equal),
        b'<' => Some(Kind::Less),
        b'>' => Some(Kind::Greater),
        b'[' => Some(Kind::LeftBracket),
        b']' => Some(Kind::RightBracket),
        b'(' => Some(Kind::LeftParen),
        b')' => Some(Kind::RightParen),
        b'.' => Some(Kind::Dot),
        b',' => Some(Kind::Comma),
        b':' => Some(Kind::Colon),
        b';' => Some(Kind::Semicolon),
        b'^' | b'@' => Some(Kind::Caret),
        _ => None,
    }
}
