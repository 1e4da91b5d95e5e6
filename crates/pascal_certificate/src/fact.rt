//! The facts in a certificate.

ghost use Rattle.std.specs.Prelude.{◌≡◌};
ghost use Rattle.std.specs.List.{list_all};
ghost use Rattle.pascal_certificate.specs.Facts.{fits, has_kind, is_count, is_line, is_not_known, is_printed, is_sum};
ghost use Rattle.pascal_certificate.specs.Facts.{is_sum_digit, kind_of, label, may_be_untold, may_lack};
ghost use Rattle.pascal_certificate.specs.Facts.{tells_image, tells_program, tells_source};

/// A fact in a certificate, on a line of its own.
#[derive(Clone, Copy)]
pub enum Fact {
    /// The sum of the source.
    SourceSum,
    /// The bytes of the source.
    SourceBytes,
    /// The sum of the image.
    ImageSum,
    /// The bytes of the image.
    ImageBytes,
    /// What the image is for.
    Target,
    /// Bytes of stack that are enough, if they are known.
    StackEnough,
    /// The version of the program that wrote the certificate.
    Version,
    /// The kit that this program was proved and built with.
    Kit,
    /// The sum of the sources that it was built of, if it is known.
    Sources,
    /// The sum of the program's file, if it can be read.
    ProgramSum,
    /// The bytes of the program's file, if it can be read.
    ProgramBytes,
    /// The sum of docs/TRUSTED.md, which lists what has to be believed.
    Believed,
}

/// All facts, in the order of their lines.
pub const FACTS: [Fact; 12] = [
    Fact::SourceSum,
    Fact::SourceBytes,
    Fact::ImageSum,
    Fact::ImageBytes,
    Fact::Target,
    Fact::StackEnough,
    Fact::Version,
    Fact::Kit,
    Fact::Sources,
    Fact::ProgramSum,
    Fact::ProgramBytes,
    Fact::Believed,
];

/// What is written for a value that is not known.
pub const NOT_KNOWN: &[u8] = b"not known";

// What the value of a fact is.
#[derive(Clone, Copy)]
enum Kind {
    // A sum: 64 hexadecimal digits, with small letters.
    Sum,
    // A count: decimal digits.
    Count,
    // Words.
    Words,
}

/// What the line of a fact begins with.
pub fn label(fact: Fact) -> &'static str
    ensures { result.now ≡ label fact }
{
    match fact {
        Fact::SourceSum => "source-sha256",
        Fact::SourceBytes => "source-bytes",
        Fact::ImageSum => "image-sha256",
        Fact::ImageBytes => "image-bytes",
        Fact::Target => "image-target",
        Fact::StackEnough => "stack-enough",
        Fact::Version => "program-version",
        Fact::Kit => "program-kit",
        Fact::Sources => "program-sources",
        Fact::ProgramSum => "program-sha256",
        Fact::ProgramBytes => "program-bytes",
        Fact::Believed => "believed-sha256",
    }
}

// What the value of a fact is.
fn kind_of(fact: Fact) -> Kind
    ensures { result ≡ kind_of fact }
{
    match fact {
        Fact::SourceSum => Kind::Sum,
        Fact::SourceBytes => Kind::Count,
        Fact::ImageSum => Kind::Sum,
        Fact::ImageBytes => Kind::Count,
        Fact::Target => Kind::Words,
        Fact::StackEnough => Kind::Count,
        Fact::Version => Kind::Words,
        Fact::Kit => Kind::Words,
        Fact::Sources => Kind::Sum,
        Fact::ProgramSum => Kind::Sum,
        Fact::ProgramBytes => Kind::Count,
        Fact::Believed => Kind::Sum,
    }
}

/// Whether the value of a fact may be not known.
pub(crate) fn may_lack(fact: Fact) -> bool
    ensures { result ≡ may_lack fact }
{
    match fact {
        Fact::StackEnough => true,
        Fact::Sources => true,
        Fact::ProgramSum => true,
        Fact::ProgramBytes => true,
        _ => false,
    }
}

/// Whether a fact that is not known on one side is skipped: the program may not have received it, or not have been able
/// to read it.
pub(crate) fn may_be_untold(fact: Fact) -> bool
    ensures { result ≡ may_be_untold fact }
{
    match fact {
        Fact::Sources => true,
        Fact::ProgramSum => true,
        Fact::ProgramBytes => true,
        _ => false,
    }
}

/// Whether a fact is one of the source.
pub(crate) fn tells_source(fact: Fact) -> bool
    ensures { result ≡ tells_source fact }
{
    match fact {
        Fact::SourceSum => true,
        Fact::SourceBytes => true,
        _ => false,
    }
}

/// Whether a fact is one of the image.
pub(crate) fn tells_image(fact: Fact) -> bool
    ensures { result ≡ tells_image fact }
{
    match fact {
        Fact::ImageSum => true,
        Fact::ImageBytes => true,
        _ => false,
    }
}

/// Whether a fact is one of the program. The stack that is enough is one of the source, the image and the program
/// together.
pub(crate) fn tells_program(fact: Fact) -> bool
    ensures { result ≡ tells_program fact }
{
    match fact {
        Fact::SourceSum => false,
        Fact::SourceBytes => false,
        Fact::ImageSum => false,
        Fact::ImageBytes => false,
        Fact::StackEnough => false,
        _ => true,
    }
}

// Whether a byte is printed.
fn is_printed(byte: u8) -> bool
    ensures { result ≡ is_printed byte }
{
    32 <= byte && byte <= 126
}

// Whether all bytes are printed.
fn are_printed(text: &[u8]) -> bool
    ensures { result ≡ list_all is_printed text.now }
{
    let mut rest = text;
    while let [byte, behind @ ..] = rest {
        if !is_printed(*byte) {
            return false;
        }
        rest = behind;
    }
    true
}

// Whether bytes are printable characters, at least one.
fn is_line(text: &[u8]) -> bool
    ensures { result ≡ is_line text.now }
{
    !text.is_empty() && are_printed(text)
}

// Whether bytes are decimal digits.
fn is_count(text: &[u8]) -> bool
    ensures { result ≡ is_count text.now }
{
    text.iter().all(|byte| byte.is_ascii_digit())
}

// Whether a byte is a hexadecimal digit, and no capital letter.
fn is_sum_digit(byte: u8) -> bool
    ensures { result ≡ is_sum_digit byte }
{
    (48 <= byte && byte <= 57) || (97 <= byte && byte <= 102)
}

// Whether all bytes are such digits.
fn are_sum_digits(text: &[u8]) -> bool
    ensures { result ≡ list_all is_sum_digit text.now }
{
    let mut rest = text;
    while let [byte, behind @ ..] = rest {
        if !is_sum_digit(*byte) {
            return false;
        }
        rest = behind;
    }
    true
}

// Whether bytes are a sum.
fn is_sum(text: &[u8]) -> bool
    ensures { result ≡ is_sum text.now }
{
    text.len() == 64 && are_sum_digits(text)
}

// Whether bytes are of a kind.
fn has_kind(kind: Kind, text: &[u8]) -> bool
    ensures { result ≡ has_kind kind text.now }
{
    match kind {
        Kind::Sum => is_sum(text),
        Kind::Count => is_count(text),
        Kind::Words => true,
    }
}

/// Whether bytes say that a value is not known.
pub(crate) fn is_not_known(text: &[u8]) -> bool
    ensures { result ≡ is_not_known text.now }
{
    text == NOT_KNOWN
}

/// Whether bytes can be the value of a fact.
pub fn fits(fact: Fact, text: &[u8]) -> bool
    ensures { result ≡ fits fact text.now }
{
    is_line(text) && ((may_lack(fact) && is_not_known(text)) || has_kind(kind_of(fact), text))
}
