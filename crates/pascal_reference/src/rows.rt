// The rows of tables: the results of single calls of the compiler's layers, as the crate `test_tables` reads and
// repeats them.

mod command;

use command::Table as Command;
use command::programs::BuiltQuery;
use std::alloc::{AllocError, Global};
use std::io;
use test_code::Table as Code;
use test_code::programs::CodeQuery;
use test_language::Table as Language;
use test_language::blocks::BlockQuery;
use test_language::check::ProgramQuery;
use test_language::front::TreeQuery;
use test_language::tokens::TokenQuery;
use test_tables::{Answers, Line, answer_rows};

/// The question that a row asks, by the name of its table.
#[derive(Clone, Copy)]
enum Table {
    Unknown,
    Language(Language),
    Code(Code),
    Command(Command),
}

// The tables by their names.
const TABLES: &[(&str, Table)] = &[
    ("lengths", Table::Language(Language::Lengths)),
    ("lines", Table::Language(Language::Lines)),
    ("slices", Table::Language(Language::Slices)),
    (
        "kinds",
        Table::Language(Language::Tokens(TokenQuery::Kinds)),
    ),
    (
        "spans",
        Table::Language(Language::Tokens(TokenQuery::Spans)),
    ),
    ("values", Table::Language(Language::Values)),
    ("parse", Table::Language(Language::Tree(TreeQuery::Height))),
    (
        "trees",
        Table::Language(Language::Tree(TreeQuery::Statements)),
    ),
    ("regions", Table::Language(Language::Regions)),
    (
        "declarations",
        Table::Language(Language::Tree(TreeQuery::Block(BlockQuery::Declarations))),
    ),
    (
        "sizes",
        Table::Language(Language::Tree(TreeQuery::Block(BlockQuery::Sizes))),
    ),
    (
        "fields",
        Table::Language(Language::Tree(TreeQuery::Block(BlockQuery::Fields))),
    ),
    (
        "types",
        Table::Language(Language::Tree(TreeQuery::Block(BlockQuery::Types))),
    ),
    (
        "expressions",
        Table::Language(Language::Tree(TreeQuery::Block(BlockQuery::Expressions))),
    ),
    (
        "statements",
        Table::Language(Language::Tree(TreeQuery::Block(BlockQuery::Statements))),
    ),
    (
        "check",
        Table::Language(Language::Program(ProgramQuery::Verdict)),
    ),
    (
        "programs",
        Table::Language(Language::Program(ProgramQuery::Counts)),
    ),
    (
        "runs",
        Table::Language(Language::Program(ProgramQuery::Run)),
    ),
    (
        "trails",
        Table::Language(Language::Program(ProgramQuery::Trail)),
    ),
    (
        "outputs",
        Table::Language(Language::Program(ProgramQuery::Output)),
    ),
    ("code", Table::Code(Code::Programs(CodeQuery::Kept))),
    ("printed", Table::Code(Code::Programs(CodeQuery::Printed))),
    ("homes", Table::Code(Code::Programs(CodeQuery::Tried))),
    ("registers", Table::Code(Code::Programs(CodeQuery::Scanned))),
    ("slots", Table::Code(Code::Programs(CodeQuery::Slotted))),
    ("instructions", Table::Code(Code::Words)),
    ("steps", Table::Code(Code::Steps)),
    ("machines", Table::Code(Code::Runs)),
    ("streams", Table::Code(Code::Streamed)),
    ("devices", Table::Code(Code::Devices)),
    ("starts", Table::Code(Code::Started)),
    ("views", Table::Code(Code::Images)),
    ("written", Table::Code(Code::Written)),
    ("loads", Table::Code(Code::Loaded)),
    ("build", Table::Command(Command::Built(BuiltQuery::Built))),
    ("go", Table::Command(Command::Go)),
    ("built", Table::Command(Command::Built(BuiltQuery::Ran))),
    ("writers", Table::Command(Command::Writers)),
    ("images", Table::Command(Command::Images)),
    ("calls", Table::Command(Command::Calls)),
    (
        "listings",
        Table::Command(Command::Built(BuiltQuery::Listed)),
    ),
    ("reports", Table::Command(Command::Reports)),
    ("words", Table::Command(Command::Words)),
    ("puts", Table::Command(Command::Puts)),
    ("reads", Table::Command(Command::Reads)),
    ("texts", Table::Command(Command::Texts)),
];

fn table_named(name: &str) -> Table {
    for (known, table) in TABLES {
        if *known == name {
            return *table;
        }
    }
    Table::Unknown
}

/// The table being read, and the settings of its next row, by the group of the table.
#[derive(Drop)]
struct Rows {
    table: Table,
    language: test_language::RunSettings,
    code: test_code::RowSettings,
    command: command::CallSettings,
}

impl Answers for Rows {
    fn begin(&mut self, table: &str) {
        self.table = table_named(table);
    }

    fn set(&mut self, word: &str, rest: &str, text: Vec<u8>) -> Result<(), AllocError> {
        match self.table {
            Table::Unknown => Ok(()),
            Table::Language(_) => self.language.set(word, rest, text),
            Table::Code(_) => self.code.set(word, rest, text),
            Table::Command(_) => {
                self.command.set(word, rest);
                Ok(())
            }
        }
    }

    fn answer(&mut self, alloc: Global, text: &[u8]) -> Result<String, AllocError> {
        let mut line = Line::new(alloc);
        self.put_answer(alloc, &mut line, text)?;
        self.language = test_language::defaults(alloc);
        self.code = test_code::defaults(alloc);
        self.command = command::defaults();
        line.into_text()
    }
}

impl Rows {
    fn put_answer(&self, alloc: Global, line: &mut Line, text: &[u8]) -> Result<(), AllocError> {
        match self.table {
            Table::Unknown => line.word("no such table"),
            Table::Language(table) => test_language::answer(
                alloc,
                line,
                table,
                text,
                &self.language,
            ),
            Table::Code(table) => return test_code::answer(alloc, line, table, text, &self.code),
            Table::Command(table) => {
                return command::answer(alloc, line, table, text, self.command);
            }
        }
        Ok(())
    }
}

/// Answers the rows of the tables on standard input.
pub fn answer_all<R: Input + Print + AllocGlobal>(rt: &R) -> io::Result<()> {
    let alloc = rt.alloc();
    let mut rows = Rows {
        table: Table::Unknown,
        language: test_language::defaults(alloc),
        code: test_code::defaults(alloc),
        command: command::defaults(),
    };
    answer_rows(rt, &mut rows)
}
