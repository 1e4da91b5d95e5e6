//! The rules by which reasons are found and reported: when a rule fits the tokens around the place, and what is
//! reported then. Their tables are in the other modules: flat lists of steps, since the cost of proving a function
//! grows fast with the depth of the constants that it names.

use crate::letters::Class;
use crate::rows::Part;
use crate::signs::Sign;
use ps_diagnose::RequiredName;
use ps_scan::Kind;

/// A token, by its position relative to the place, to what is open there, or to what has ended there.
pub(crate) enum Place {
    /// The token at the place.
    Here,
    /// This many tokens after it.
    Ahead(usize),
    /// This many tokens before it.
    Back(usize),
    /// After the last token.
    TextEnd,
    /// The first token of the statement.
    Start,
    /// The token after the statement.
    StatementEnd,
    /// This many tokens before that one.
    Last(usize),
    /// The `:=` of the statement before the place.
    Assigned,
    /// The `:=` of the statement from the place on.
    NextAssign,
    /// The `end` that ended the program.
    Ended,
    /// The token after it.
    Point,
    /// What the last `end` ended.
    Closed,
    /// The heading of the routine that the last `end` ended.
    ClosedHead,
    /// The name there.
    ClosedName,
    /// The construction that seems to want a `begin`, otherwise the last one that took one statement, and no `begin`;
    /// its `else`, if that took the statement.
    Bare,
    /// The `then`, `do` or `else` of the construction that seems to want a `begin`.
    Unbegun,
    /// The innermost construction that is open.
    Top,
    /// The token before it.
    BeforeTop,
    /// What closes it, from the place on.
    TopEnd,
    /// The first `,` from the place on, if a name that the text seems to declare comes after it, otherwise what closes
    /// the innermost construction.
    WordsEnd,
    /// The innermost one with an end of its own, otherwise the block.
    List,
    /// The innermost one that begins with a token of a kind.
    Innermost(Kind),
    /// The innermost `if` that waits for its `else`.
    WaitingIf,
    /// The `if` that the last `;` ended.
    EndedIf,
    /// An `if` among the statements before.
    PastIf,
    /// The first `end` from the place on that ends nothing which begins there, or the end of the text.
    NextEnd,
    /// The token after it.
    BehindEnd,
    /// The next `until` or `repeat`.
    NextUntil,
    /// The token after the `then` of the past `if`.
    BehindThen,
    /// The token after the names, with commas between them, that begin at the place.
    BehindNames,
    /// The token after the last `:` of the open `case`.
    Chosen,
    /// The `;` before its next constants.
    NextChoice,
    /// The heading of the block.
    Head,
    /// The name of the block.
    HeadName,
    /// The `begin` of the block.
    Begun,
    /// The first procedure or function of the block.
    Routines,
    /// What must come after declarations of the kind at the place in the block: a part, the routines or the `begin`.
    Later,
    /// The part of the kind at the place.
    SamePart,
    /// The last token of the part at the place.
    LastOfPart,
    /// The last token of the declaration at the place, among statements.
    LastDeclared,
    /// The first token of the expression.
    ExpressionStart,
    /// The token after the expression.
    ExpressionEnd,
    /// The token after the expression that begins after the place.
    NextExpressionEnd,
    /// The first token of a kind in the expression before the place.
    First(Kind),
    /// The first comparison there.
    FirstComparison,
    /// The `and` or `or` after the first comparison of the expression.
    Joint,
    /// The operator before the left operand of that.
    JointLeft,
    /// The operator after its right operand.
    JointRight,
    /// What closes the parenthesis or the bracket at the place.
    Closing,
    /// The first token of a line that is indented as if what the last `end` ended, or something in that, had ended
    /// before it.
    Outside,
    /// The token before it.
    BeforeOutside,
    /// What is within what the last `end` ended, if that line is indented as if this had ended.
    Unended,
}

/// Several tokens.
pub(crate) enum Reach {
    One(Place),
    /// From one to another one.
    To(Place, Place),
    /// From one to the one before another one.
    UpTo(Place, Place),
    /// What is between two.
    Between(Place, Place),
}

/// What is or isn't true around the place.
pub(crate) enum Fact {
    /// It is among statements.
    Statements,
    /// It is among declarations, and in no list of parameters.
    Declarations,
    /// It is in a list of formal parameters.
    Parameters,
    /// Its block has passed its heading.
    Headed,
    /// Its block is a procedure or a function.
    InRoutine,
    /// Its block is a function.
    InFunction,
    /// It is after the heading of a routine, before its `;`.
    BehindHeading,
    /// What the last `end` ended is a procedure or a function.
    RoutineEnded,
    /// It is in parentheses or brackets, or in the head of a statement.
    Inside,
    /// The tokens before it are a variable that begins a statement.
    BehindVariable,
    /// The token before it is a constant of a `case`, and the first one there.
    BehindConstant,
    /// The text seems to read.
    Reads,
    /// The name before it seems to be that of a procedure.
    Procedure,
    /// The name before it seems to be that of a function.
    Function,
    /// The token before it is in its line.
    OneLine,
    /// There is a brace between the token before it and it.
    Brace,
    /// The two slashes at it seem to divide.
    Divides,
    /// A digit comes after the sign there.
    Digit,
    /// A letter or a digit comes before it.
    BehindLetter,
}

/// What only code can report.
pub(crate) enum More {
    /// Proposes what ends all that is open.
    Ends,
    /// The advice on a text that begins by the token at the place.
    Beginning,
    /// Proposes to write the apostrophe twice that ended the string before the place.
    Apostrophe,
    /// Proposes words of the language that are spelled nearly so.
    Words,
    /// Proposes `input` or `output`, if the name is spelled nearly so.
    Files,
    /// Proposes parentheses around the comparisons of the expression.
    Parentheses,
    /// Proposes braces for two slashes.
    Braces,
    /// The other uses of real numbers.
    Reals,
    /// The advice of the row of the token at the place, and what it exchanges.
    LeftOut,
    /// Proposes apostrophes for a pair of quotes.
    Quotes,
    /// Proposes names without underscores.
    Underscores,
    /// Proposes plain spaces for those of the kind at the place.
    Spaces,
    /// Proposes a minus sign for a dash.
    Minus,
    /// Proposes `chr(65)` for `#65`.
    Character,
    /// Proposes the decimal number for `$FF`.
    Decimal,
    /// What seems to begin a comment in the one at the place.
    InnerComment,
    /// Proposes to write an apostrophe within the string twice.
    InnerApostrophe,
    /// Proposes to begin the string earlier.
    StringBefore,
    /// Proposes to end it in its line.
    StringEnd,
    /// Proposes to fill an empty string, or to take it away.
    EmptyString,
    /// Proposes what separates a word from the number before it.
    Separators,
    /// Proposes braces for a comment after `#`.
    Hash,
    /// Proposes to move the declaration of variables that begins the statement, or at the place, up.
    Variables,
    /// Proposes `n := n div 2` for `n /= 2`.
    Divided,
    /// Proposes `1..3` for `1.3`.
    Bounds,
    /// Proposes `(*` and `*)` for the ends of a comment of C.
    Stars,
}

/// A step of a table of rules. A rule goes from one `Rule` to the next: its tests, followed by what is reported if they
/// hold. A step that begins a text is followed by the pieces of the text.
pub(crate) enum Step {
    /// A rule begins.
    Rule,
    /// The rule also fits if the tests after this hold instead of those before it. It comes before everything that is
    /// reported.
    Or,
    /// Something reported in addition begins, after tests of its own.
    Also,

    // Tests.
    /// A fact is true.
    Holds(Fact),
    /// It is not so.
    Fails(Fact),
    /// A token is of one of some kinds.
    Is(Place, &'static [Kind]),
    /// A token is of none of them.
    IsNot(Place, &'static [Kind]),
    /// A token is spelled as one of some words, with a space between two.
    Spelled(Place, &'static str),
    /// It is spelled as none of them.
    NotSpelled(Place, &'static str),
    /// A token is one of some required names.
    Names(Place, &'static [RequiredName]),
    /// A token is the name of a type in most texts.
    NamesType(Place),
    /// A token is a name that the text seems to declare.
    SeemsDeclared(Place),
    /// There is a token.
    Has(Place),
    /// There is none.
    No(Place),
    /// Two are one.
    Same(Place, Place),
    /// Two have the same bytes.
    Alike(Place, Place),
    /// One comes after another one, or is the same.
    NotBefore(Place, Place),
    /// There is nothing between a token and the next.
    Touches(Place),
    /// There is something between them.
    Apart(Place),
    /// Tokens are shown as they are, not as dots.
    IsShown(Reach),
    /// The place is in the head of a construction that begins with one of some kinds.
    InHead(&'static [Kind]),
    /// It is after the head of one.
    InBody(&'static [Kind]),
    /// The open part of declarations is one of some.
    InPart(&'static [Kind]),
    /// It is none of them.
    NotInPart(&'static [Kind]),
    /// The character at the place is such a sign.
    IsSign(Sign),
    /// There is a text at the place.
    Stands(&'static str),

    // What is reported.
    /// That the token cannot be there, and why.
    Why(&'static str),
    /// A sentence.
    Says(&'static str),
    /// A sentence that is shown with what could come there.
    Expects(&'static str),
    /// A second place.
    Label(Reach, &'static str),
    Note(&'static str),
    Help(&'static str),
    /// The advice of a row of the table of other Pascals.
    Advice(Part, &'static str),
    /// Proposes to exchange tokens.
    Exchange(Reach, &'static str),
    /// Proposes, at a cost, to take tokens away.
    TakeAway(u32, Reach),
    /// Proposes to put something before a token: the words for it, and the text to put.
    PutBefore(Place, &'static str, &'static str),
    /// Proposes, at a cost, to put something after a token.
    PutBehind(u32, Place, &'static str, &'static str),
    /// Proposes to move the declarations from the place to a token before another one.
    Move(Place, Place),
    /// Proposes `begin` before a token, and `end` before another one.
    Enclose(Place, Place),
    /// Proposes to exchange the sign at the place, with spaces where what is put would touch a name.
    ExchangeSign(&'static str, &'static str),
    /// Proposes to put something after the line: the words for it, and the text to put.
    CloseLine(&'static str, &'static str),
    /// What only code can report.
    Tell(More),
    /// Nothing: only whether the rule fits matters.
    Fits,

    // Pieces of the text before them.
    Put(&'static str),
    /// A token as it is shown.
    Token(Place),
    /// Several, as they are shown.
    Tokens(Reach),
    /// The line and the column of a token.
    Where(Place),
    /// The line of a token.
    Line(Place),
    /// What the part declares that a token begins.
    Declares(Place),
    /// The word of the routine that the last `end` ended.
    Routine,
    /// Where a row of the table comes from.
    Origin(Part, &'static str),
    /// The character at the place.
    Letter,
    /// Its number, as U+2018.
    Code,
    /// The number of the byte there.
    Byte,
    /// What the place has.
    Found,
    /// The bytes from it on that are of a class.
    Run(Class),
}

/// Rules one after another, the first of which that fits counts; or the rest of them from a step on.
pub(crate) type Steps = &'static [Step];
