//! The pages of docs/EXPLAIN.md on what is refused, each in a function of its own. Written by tools/explain.

ghost use Rattle.std.specs.Prelude.{◌≡◌, codes};
ghost use Rattle.pascal_pages.specs.Asked.{names_of, page_names};

use crate::Page;

pub(crate) fn refusal_1_toolong() -> Page
    ensures { names_of result ≡ page_names (codes "1 TooLong") (codes "TooLong") (codes "1") (codes "refusal 1") (codes "error 1 TooLong") }
{
    Page {
        title: "1 TooLong",
        words: "TooLong",
        number: "1",
        named: "refusal 1",
        told: "error 1 TooLong",
        text: "The text has more than 1,048,576 bytes. No more is read of it than that.\n\nWrong:\n\n    program long(output);\n    begin\n    { 70000 times }  { hello }\n      writeln('hello')\n    end.\n    { 50000 times } (* hello *)\n\nSays:\n\n    refused: 1 TooLong\n\nMend: a text of that length is written by another program, or is no Pascal text\nat all: see whether the name of the file is right. What such a text does line by\nline, a loop does over a table that it reads from its input.\n\nRight:\n\n    program short(output);\n    var i: integer;\n    begin\n      for i := 1 to 3 do writeln('hello')\n    end.\n\nWrites:\n\n    hello\n    hello\n    hello\n\nRule: a limit of this compiler. The standard sets none (ISO 7185, 1.2).\n",
    }
}

pub(crate) fn refusal_2_toomanylines() -> Page
    ensures { names_of result ≡ page_names (codes "2 TooManyLines") (codes "TooManyLines") (codes "2") (codes "refusal 2") (codes "error 2 TooManyLines") }
{
    Page {
        title: "2 TooManyLines",
        words: "TooManyLines",
        number: "2",
        named: "refusal 2",
        told: "error 2 TooManyLines",
        text: "The text has more than 65,535 lines. It is not too long besides.\n\nWrong:\n\n    program lines(output);\n    begin\n    { 65533 times }\n      writeln('hello')\n    end.\n\nSays:\n\n    refused: 2 TooManyLines\n\nMend: join short lines. An end of a line is a separator like a space, so any\nnumber of statements may be on one line.\n\nRight:\n\n    program lines(output);\n    begin\n      write('hel'); write('lo'); writeln\n    end.\n\nWrites:\n\n    hello\n\nRule: a limit of this compiler. The standard sets none (ISO 7185, 1.2).\n",
    }
}

pub(crate) fn refusal_9_outofmemory() -> Page
    ensures { names_of result ≡ page_names (codes "9 OutOfMemory") (codes "OutOfMemory") (codes "9") (codes "refusal 9") (codes "error 9 OutOfMemory") }
{
    Page {
        title: "9 OutOfMemory",
        words: "OutOfMemory",
        number: "9",
        named: "refusal 9",
        told: "error 9 OutOfMemory",
        text: "The machine on which the compiler runs gave it no more memory. Nothing was\nwritten. This says nothing about your text: it may be right or wrong.\n\nSession:\n\n    $ (ulimit -v 15000; pascal go --stack 15000000 hello.pas)\n    refused: 9 OutOfMemory\n\nFile hello.pas:\n\n    program hello(output);\n    begin\n      writeln('hello')\n    end.\n\nMend: give the run a smaller stack and heap, end other programs, or raise the\nlimit that was set for this one (`ulimit -v` shows it).\n\nSession:\n\n    $ (ulimit -v 15000; pascal go --stack 100000 hello.pas)\n    hello\n\nRule: none of the language. Each call that takes memory may meet this.\n",
    }
}

pub(crate) fn refusal_10_badbyte() -> Page
    ensures { names_of result ≡ page_names (codes "10 BadByte") (codes "BadByte") (codes "10") (codes "refusal 10") (codes "error 10 BadByte") }
{
    Page {
        title: "10 BadByte",
        words: "BadByte",
        number: "10",
        named: "refusal 10",
        told: "error 10 BadByte",
        text: "There is a character here with which no token begins.\n\nWrong:\n\n    program quotes(output);\n    begin\n      writeln(‘hello’)\n    end.\n\nSays:\n\n    refused at line 3: 10 BadByte\n\nMend: strings are written between plain apostrophes, `'`. Slanted quotes get\ninto a text by copying it from a web page or a word processor. Other usual\ncauses:\n\n- `\"`: a string is written between apostrophes here, too.\n- `_` in a name: write `maxlength` or `maxLength` instead of `max_length`.\n- `&`, `|`, `!`, `%`, `#`, `$`, `?` or `\\` of other languages: write `and`,\n  `or`, `not`, `mod`, `chr(35)`; there are no hexadecimal numbers.\n- a letter with an accent in a name: names have the letters a to z alone. In\n  strings and comments any character is allowed.\n\nRight:\n\n    program quotes(output);\n    begin\n      writeln('hello')\n    end.\n\nWrites:\n\n    hello\n\nRule: programs are made of names, words, numbers, strings, symbols and what\nparts them, and of nothing else (ISO 7185, 6.1.1 to 6.1.9).\n",
    }
}

pub(crate) fn refusal_11_opencomment() -> Page
    ensures { names_of result ≡ page_names (codes "11 OpenComment") (codes "OpenComment") (codes "11") (codes "refusal 11") (codes "error 11 OpenComment") }
{
    Page {
        title: "11 OpenComment",
        words: "OpenComment",
        number: "11",
        named: "refusal 11",
        told: "error 11 OpenComment",
        text: "A comment is opened and never closed. The line reported is the one where it\nbegins; all that follows was taken for a part of it.\n\nWrong:\n\n    program comments(output);\n    begin\n      writeln('one'); { the first line\n      writeln('two')\n    end.\n\nSays:\n\n    refused at line 3: 11 OpenComment\n\nMend: put `}` where the comment ends. `(*` and `*)` do the same as `{` and `}`.\nComments don't lie in one another: the first `}` or `*)` closes, whatever\nopened. An apostrophe within a comment means nothing.\n\nRight:\n\n    program comments(output);\n    begin\n      writeln('one'); { the first line }\n      writeln('two')\n    end.\n\nWrites:\n\n    one\n    two\n\nRule: a comment ends at the first `}` or `*)` after its beginning (ISO 7185,\n6.1.8).\n",
    }
}

pub(crate) fn refusal_12_openstring() -> Page
    ensures { names_of result ≡ page_names (codes "12 OpenString") (codes "OpenString") (codes "12") (codes "refusal 12") (codes "error 12 OpenString") }
{
    Page {
        title: "12 OpenString",
        words: "OpenString",
        number: "12",
        named: "refusal 12",
        told: "error 12 OpenString",
        text: "A string is opened, and its line ends before it is closed.\n\nWrong:\n\n    program strings(output);\n    begin\n      writeln('hello);\n      writeln('bye')\n    end.\n\nSays:\n\n    refused at line 3: 12 OpenString\n\nMend: close the string with an apostrophe on the same line. An apostrophe within\na string is written twice. A long text is written by several strings:\n`write('one part', ' and another')`. If the reported line looks right, an\napostrophe too many comes before it.\n\nRight:\n\n    program strings(output);\n    begin\n      writeln('hello');\n      writeln('it''s me')\n    end.\n\nWrites:\n\n    hello\n    it's me\n\nRule: a string holds no end of a line (ISO 7185, 6.1.7).\n",
    }
}

pub(crate) fn refusal_13_emptystring() -> Page
    ensures { names_of result ≡ page_names (codes "13 EmptyString") (codes "EmptyString") (codes "13") (codes "refusal 13") (codes "error 13 EmptyString") }
{
    Page {
        title: "13 EmptyString",
        words: "EmptyString",
        number: "13",
        named: "refusal 13",
        told: "error 13 EmptyString",
        text: "There is no empty string: `''` with nothing between.\n\nWrong:\n\n    program empty(output);\n    begin\n      writeln('one');\n      writeln('');\n      writeln('two')\n    end.\n\nSays:\n\n    refused at line 4: 13 EmptyString\n\nMend: `writeln` alone ends a line, and to write nothing, write nothing. The\nstring of one apostrophe is `''''`. A variable holds no text of changing length:\nkeep the characters in an array, and how many there are in a variable beside it.\n\nRight:\n\n    program empty(output);\n    begin\n      writeln('one');\n      writeln;\n      writeln('two')\n    end.\n\nWrites:\n\n    one\n\n    two\n\nRule: a string has at least one character (ISO 7185, 6.1.7).\n",
    }
}

pub(crate) fn refusal_14_separatormissing() -> Page
    ensures { names_of result ≡ page_names (codes "14 SeparatorMissing") (codes "SeparatorMissing") (codes "14") (codes "refusal 14") (codes "error 14 SeparatorMissing") }
{
    Page {
        title: "14 SeparatorMissing",
        words: "SeparatorMissing",
        number: "14",
        named: "refusal 14",
        told: "error 14 SeparatorMissing",
        text: "A number, a name or a word touches the one before it.\n\nWrong:\n\n    program touch(output);\n    var i: integer;\n    begin\n      for i := 1to 3 do writeln(i:1)\n    end.\n\nSays:\n\n    refused at line 4: 14 SeparatorMissing\n\nMend: put a space between the two. A name begins with a letter: for `2nd` write\n`second`. The factors of a product have `*` between them: for `2x` write `2 *\nx`.\n\nRight:\n\n    program touch(output);\n    var i: integer;\n    begin\n      for i := 1 to 3 do writeln(i:1)\n    end.\n\nWrites:\n\n    1\n    2\n    3\n\nRule: between two names, words or numbers there is a space, a line end or a\ncomment (ISO 7185, 6.1.8).\n",
    }
}

pub(crate) fn refusal_15_numbertoolarge() -> Page
    ensures { names_of result ≡ page_names (codes "15 NumberTooLarge") (codes "NumberTooLarge") (codes "15") (codes "refusal 15") (codes "error 15 NumberTooLarge") }
{
    Page {
        title: "15 NumberTooLarge",
        words: "NumberTooLarge",
        number: "15",
        named: "refusal 15",
        told: "error 15 NumberTooLarge",
        text: "A number in the text is above 2147483647, the largest integer that there is.\n\nWrong:\n\n    program numbers(output);\n    const people = 8000000000;\n    begin\n      writeln(people)\n    end.\n\nSays:\n\n    refused at line 2: 15 NumberTooLarge\n\nMend: count in larger units, as thousands or millions, or keep the digits of\nlong numbers in an array. The least integer, -2147483648, is written `-maxint -\n1`.\n\nRight:\n\n    program numbers(output);\n    const millions = 8000;\n    begin\n      writeln(millions:1, ' million')\n    end.\n\nWrites:\n\n    8000 million\n\nRule: a number has a value from 0 to `maxint` (ISO 7185, 6.1.5 and 6.4.2.2);\nthis compiler's `maxint` is 2147483647.\n",
    }
}

pub(crate) fn refusal_16_realnumber() -> Page
    ensures { names_of result ≡ page_names (codes "16 RealNumber") (codes "RealNumber") (codes "16") (codes "refusal 16") (codes "error 16 RealNumber") }
{
    Page {
        title: "16 RealNumber",
        words: "RealNumber",
        number: "16",
        named: "refusal 16",
        told: "error 16 RealNumber",
        text: "A number has a point or an exponent. This compiler has no real numbers.\n\nWrong:\n\n    program area(output);\n    var r, a: integer;\n    begin\n      r := 2;\n      a := 3.14 * r * r;\n      writeln(a)\n    end.\n\nSays:\n\n    refused at line 5: 16 RealNumber\n\nMend: reckon in a smaller unit, as cents for euros or hundredths: multiply\nfirst, then divide by `div`, and write both parts. After the last `end` there is\njust a point, and `1..5` without spaces is a range and no real number.\n\nRight:\n\n    program area(output);\n    var r, hundredths: integer;\n    begin\n      r := 2;\n      hundredths := 314 * r * r;\n      write(hundredths div 100:1, '.');\n      writeln(hundredths mod 100 div 10:1, hundredths mod 10:1)\n    end.\n\nWrites:\n\n    12.56\n\nRule: the standard has real numbers (ISO 7185, 6.1.5 and 6.4.2.2); this compiler\nleaves them out.\n\nSee: 22 NotInProfile.\n",
    }
}

pub(crate) fn refusal_20_notaprogram() -> Page
    ensures { names_of result ≡ page_names (codes "20 NotAProgram") (codes "NotAProgram") (codes "20") (codes "refusal 20") (codes "error 20 NotAProgram") }
{
    Page {
        title: "20 NotAProgram",
        words: "NotAProgram",
        number: "20",
        named: "refusal 20",
        told: "error 20 NotAProgram",
        text: "The words and signs of the text make no program: up to the token reported,\nor the end of the text, it could go on to be one, and with it it no longer can.\nSo what is wrong is there or right before it, often at the end of the line\nabove.\n\nWrong:\n\n    program sum(output);\n    var a, b: integer;\n    begin\n      a := 3;\n      b := 4\n\n      writeln(a + b)\n    end.\n\nSays:\n\n    refused at line 7: 20 NotAProgram\n\nMend: two statements are separated by `;`. Here it is missing after `b := 4`;\nthe line reported is the one where the next statement begins.\n\nRight:\n\n    program sum(output);\n    var a, b: integer;\n    begin\n      a := 3;\n      b := 4;\n\n      writeln(a + b:1)\n    end.\n\nWrites:\n\n    7\n\nUsual causes:\n\n- `;` before `else`, which ends the `if`: take it away.\n- a missing `then`, `do`, `of`, `end` or parenthesis, or an `end` too many.\n- no `.` after the last `end`, or no text at all.\n- `=` for `:=` in an assignment, or `:=` for `=` in a `const` part.\n- `x > 1 and x < 9`: `and` and `or` bind tighter than `<`, `=` and `>`, so write\n  `(x > 1) and (x < 9)`.\n- declarations out of order: first `const`, then `type`, `var`, and last the\n  procedures and functions, each part once.\n- a word of the language as a name (`end`, `type`, `label`, `program` ..).\n- words of other Pascals: `uses`, `elseif`, `else` in a `case`, `string[20]`.\n\nWrong:\n\n    program order(output);\n    var x: integer;\n    begin\n      x := 5;\n      if x > 1 and x < 10 then\n        writeln('small');\n      else\n        writeln('large')\n    end.\n\nSays:\n\n    refused at line 5: 20 NotAProgram\n\nRight:\n\n    program order(output);\n    var x: integer;\n    begin\n      x := 5;\n      if (x > 1) and (x < 10) then\n        writeln('small')\n      else\n        writeln('large')\n    end.\n\nWrites:\n\n    small\n\nRule: the grammar of the language (ISO 7185, 6.2 to 6.10), restated in\ndocs/LANGUAGE.md.\n",
    }
}

pub(crate) fn refusal_21_toodeep() -> Page
    ensures { names_of result ≡ page_names (codes "21 TooDeep") (codes "TooDeep") (codes "21") (codes "refusal 21") (codes "error 21 TooDeep") }
{
    Page {
        title: "21 TooDeep",
        words: "TooDeep",
        number: "21",
        named: "refusal 21",
        told: "error 21 TooDeep",
        text: "Constructions lie in one another more than 500 deep: parentheses, statements in\nstatements, types in types, procedures in procedures.\n\nWrong:\n\n    program deep(output);\n    begin\n      writeln(\n    { 500 times } (\n      1\n    { 500 times } )\n      )\n    end.\n\nSays:\n\n    refused at line 502: 21 TooDeep\n\nMend: give parts names: a procedure for an inner statement, a variable for an\ninner part of a formula, a type for a part of a type.\n\nRight:\n\n    program deep(output);\n    begin\n      writeln(\n    { 400 times } (\n      1\n    { 400 times } )\n      :1)\n    end.\n\nWrites:\n\n    1\n\nRule: a limit of this compiler. The standard sets none (ISO 7185, 1.2).\n",
    }
}

pub(crate) fn refusal_22_notinprofile() -> Page
    ensures { names_of result ≡ page_names (codes "22 NotInProfile") (codes "NotInProfile") (codes "22") (codes "refusal 22") (codes "error 22 NotInProfile") }
{
    Page {
        title: "22 NotInProfile",
        words: "NotInProfile",
        number: "22",
        named: "refusal 22",
        told: "error 22 NotInProfile",
        text: "The text uses a part of Pascal that this compiler leaves out: real numbers\n(`real`, `/`, `sqrt`, `sin`, `round` ..), `goto` and `label`, files other than\ninput and output (`file`, `text`, `reset` ..), variant parts of records (`case`\nin a record), `dispose`, `page`.\n\nWrong:\n\n    program mean(output);\n    var a, b: integer;\n    begin\n      a := 3; b := 6;\n      writeln((a + b) / 2)\n    end.\n\nSays:\n\n    refused at line 5: 22 NotInProfile\n\nMend: each has a usual way to do without.\n\n- For `/` use `div` (the quotient without its remainder) and `mod` (the\n  remainder).\n- For `real`, integers of a smaller unit, as cents or hundredths.\n- For `goto`, `while`, `repeat`, a Boolean variable, or a procedure.\n- For a file, input and output: `pascal go count.pas < words.txt > counts.txt`.\n- For a variant part, a record with all fields.\n- For `dispose`, a list of objects that are free, from which the next is taken.\n\nA name that is only required by the standard, as `real` or `page`, may be\ndeclared by the program itself: then it is an ordinary name.\n\nRight:\n\n    program mean(output);\n    var a, b: integer;\n    begin\n      a := 3; b := 6;\n      writeln((a + b) div 2:1, ' and ', (a + b) mod 2:1, ' halves')\n    end.\n\nWrites:\n\n    4 and 1 halves\n\nRule: the standard has all these (ISO 7185, 6.4.2.2, 6.4.3.3, 6.4.3.5, 6.6.5.2,\n6.8.2.4). The head of docs/LANGUAGE.md lists what this compiler leaves out.\n\nSee: 16 RealNumber.\n",
    }
}

pub(crate) fn refusal_30_unknown() -> Page
    ensures { names_of result ≡ page_names (codes "30 Unknown") (codes "Unknown") (codes "30") (codes "refusal 30") (codes "error 30 Unknown") }
{
    Page {
        title: "30 Unknown",
        words: "Unknown",
        number: "30",
        named: "refusal 30",
        told: "error 30 Unknown",
        text: "A name is used and nowhere declared, or not declared where it is used: what a\nprocedure declares is known within that procedure alone.\n\nWrong:\n\n    program spell(output);\n    var counter: integer;\n    begin\n      counter := 0;\n      while counter < 3 do\n        conter := counter + 1;\n      writeln(counter)\n    end.\n\nSays:\n\n    refused at line 6: 30 Unknown\n\nMend: see whether the name is spelled as where it is declared (small and capital\nletters are the same). If it is declared nowhere, declare it. If another\nprocedure declares it, pass it as a parameter or declare it in the block round\nboth. A field follows its record: `person.age`. Names that other Pascals know\nand this one does not, as `string`, `inc`, `exit` or `result`, are listed in\ndocs/OTHER_PASCALS.md.\n\nRight:\n\n    program spell(output);\n    var counter: integer;\n    begin\n      counter := 0;\n      while counter < 3 do\n        counter := counter + 1;\n      writeln(counter:1)\n    end.\n\nWrites:\n\n    3\n\nRule: each name that is used has a defining point, whose region holds the place\nwhere it is used (ISO 7185, 6.2.2.1 and 6.2.2.8).\n",
    }
}

pub(crate) fn refusal_31_twice() -> Page
    ensures { names_of result ≡ page_names (codes "31 Twice") (codes "Twice") (codes "31") (codes "refusal 31") (codes "error 31 Twice") }
{
    Page {
        title: "31 Twice",
        words: "Twice",
        number: "31",
        named: "refusal 31",
        told: "error 31 Twice",
        text: "A name is declared twice in one block, one list of parameters, one record or one\nenumeration. The second is reported.\n\nWrong:\n\n    program twice(output);\n    var n: integer;\n        n: char;\n    begin\n      n := 'a';\n      writeln(n)\n    end.\n\nSays:\n\n    refused at line 3: 31 Twice\n\nMend: take one of the two away, or give it another name. Parameters and the\nvariables of their procedure share one block, so no variable may have a\nparameter's name. A heading that was given before with `forward` is completed\nwithout its parameters: `procedure p;`.\n\nRight:\n\n    program twice(output);\n    var n: integer;\n        letter: char;\n    begin\n      n := 1; letter := 'a';\n      writeln(letter, n:2)\n    end.\n\nWrites:\n\n    a 1\n\nRule: a name has one defining point in a region (ISO 7185, 6.2.2.7). Within a\nblock of its own a procedure may declare the name again.\n",
    }
}

pub(crate) fn refusal_32_usedbefore() -> Page
    ensures { names_of result ≡ page_names (codes "32 UsedBefore") (codes "UsedBefore") (codes "32") (codes "refusal 32") (codes "error 32 UsedBefore") }
{
    Page {
        title: "32 UsedBefore",
        words: "UsedBefore",
        number: "32",
        named: "refusal 32",
        told: "error 32 UsedBefore",
        text: "A name is used above its declaration, or within the declaration of itself.\n\nWrong:\n\n    program before(output);\n    const widest = width;\n          width = 10;\n    begin\n      writeln(widest)\n    end.\n\nSays:\n\n    refused at line 2: 32 UsedBefore\n\nMend: declare first what others use. Two procedures that call each other need a\nheading in advance: `procedure last(n: integer); forward;`. The name may be one\nthat is declared round this block too: in a block that declares it, its own\ndeclaration counts from the block's beginning.\n\nRight:\n\n    program before(output);\n    const width = 10;\n          widest = width;\n    begin\n      writeln(widest:1)\n    end.\n\nWrites:\n\n    10\n\nRule: the defining point of a name comes before its uses (ISO 7185, 6.2.2.9).\nOnly the type that a pointer points to may follow, in the same `type` part.\n",
    }
}

pub(crate) fn refusal_33_wrongkind() -> Page
    ensures { names_of result ≡ page_names (codes "33 WrongKind") (codes "WrongKind") (codes "33") (codes "refusal 33") (codes "error 33 WrongKind") }
{
    Page {
        title: "33 WrongKind",
        words: "WrongKind",
        number: "33",
        named: "refusal 33",
        told: "error 33 WrongKind",
        text: "A name is of another kind than its place needs: constant, type, variable, field,\nprocedure or function.\n\nWrong:\n\n    program kinds(output);\n    const max = 10;\n    begin\n      max := 11;\n      writeln(max)\n    end.\n\nSays:\n\n    refused at line 4: 33 WrongKind\n\nMend: what changes is a variable, and is declared in the `var` part. Other usual\ncauses:\n\n- the bound of an array is a variable: bounds are constants; declare the largest\n  that is needed, and count in a variable how many are used.\n- a type where a value is needed, or a value where a type is needed.\n- a procedure within a formula: only a function has a value.\n- a variable parameter (`var`) that is given a formula or a number: it must be\n  given a variable.\n- a function called as a statement: assign its value to a variable.\n\nRight:\n\n    program kinds(output);\n    var max: integer;\n    begin\n      max := 10;\n      max := 11;\n      writeln(max:1)\n    end.\n\nWrites:\n\n    11\n\nWrong:\n\n    program kinds(output);\n    var n: integer;\n        a: array [1..n] of integer;\n    begin\n      n := 5; a[1] := n; writeln(a[1])\n    end.\n\nSays:\n\n    refused at line 3: 33 WrongKind\n\nRight:\n\n    program kinds(output);\n    const n = 5;\n    var a: array [1..n] of integer;\n    begin\n      a[1] := n; writeln(a[1]:1)\n    end.\n\nWrites:\n\n    5\n\nRule: each place of the grammar asks for a name of one kind (ISO 7185, 6.3,\n6.4.1, 6.5.1, 6.6.3.3 and 6.7.3).\n",
    }
}

pub(crate) fn refusal_34_wrongtype() -> Page
    ensures { names_of result ≡ page_names (codes "34 WrongType") (codes "WrongType") (codes "34") (codes "refusal 34") (codes "error 34 WrongType") }
{
    Page {
        title: "34 WrongType",
        words: "WrongType",
        number: "34",
        named: "refusal 34",
        told: "error 34 WrongType",
        text: "A condition, an operand, an index or a parameter has a type that can't be used\nthere.\n\nWrong:\n\n    program types(output);\n    var n: integer;\n    begin\n      n := 3;\n      if n then\n        writeln('yes')\n    end.\n\nSays:\n\n    refused at line 5: 34 WrongType\n\nMend: a condition is Boolean, as a comparison is. Other usual causes:\n\n- `+` between strings: strings aren't joined; write them one after another.\n- `and` or `or` between numbers, `not n = 1` for `not (n = 1)` or `n <> 1`.\n- two values compared of which one is a number and the other a character, or two\n  strings of different length.\n- `read` into an array or a Boolean: read its parts one by one.\n- arrays or records compared as a whole: compare their parts in a loop.\n- an index of another type than the array's, or an index after what is no\n  array.\n- `x in 1..5` instead of `x in [1..5]`.\n\nRight:\n\n    program types(output);\n    var n: integer;\n    begin\n      n := 3;\n      if n <> 0 then\n        writeln('yes')\n    end.\n\nWrites:\n\n    yes\n\nWrong:\n\n    program types(output);\n    const name = 'Ada';\n    begin\n      writeln('Hello ' + name)\n    end.\n\nSays:\n\n    refused at line 4: 34 WrongType\n\nRight:\n\n    program types(output);\n    const name = 'Ada';\n    begin\n      writeln('Hello ', name)\n    end.\n\nWrites:\n\n    Hello Ada\n\nRule: what each operator takes (ISO 7185, 6.7.2.2 to 6.7.2.5), a condition\n(6.8.3.4, 6.8.3.7, 6.8.3.8), an index (6.5.3.2), and what may be read (6.9.1).\n\nSee: 35 NotAssignable, docs/LANGUAGE.md under Types.\n",
    }
}

pub(crate) fn refusal_35_notassignable() -> Page
    ensures { names_of result ≡ page_names (codes "35 NotAssignable") (codes "NotAssignable") (codes "35") (codes "refusal 35") (codes "error 35 NotAssignable") }
{
    Page {
        title: "35 NotAssignable",
        words: "NotAssignable",
        number: "35",
        named: "refusal 35",
        told: "error 35 NotAssignable",
        text: "A value is of a type that can't be put into that variable, or passed for that\nvalue parameter.\n\nWrong:\n\n    program assign(output);\n    var n: integer; c: char;\n    begin\n      c := 'a';\n      n := c;\n      writeln(n)\n    end.\n\nSays:\n\n    refused at line 5: 35 NotAssignable\n\nMend: `ord(c)` is the number of a character, and `chr(n)` the character of a\nnumber; a digit's value is `ord(c) - ord('0')`. Strings have a fixed length:\nonly one of just as many characters fits. Two arrays or records are of one type\nonly if one type name is in both declarations, or both are in one `var` list.\n\nRight:\n\n    program assign(output);\n    var n: integer; c: char;\n    begin\n      c := 'a';\n      n := ord(c);\n      writeln(n:1)\n    end.\n\nWrites:\n\n    97\n\nWrong:\n\n    program assign(output);\n    var name: packed array [1..5] of char;\n    begin\n      name := 'Ada';\n      writeln(name)\n    end.\n\nSays:\n\n    refused at line 4: 35 NotAssignable\n\nRight:\n\n    program assign(output);\n    var name: packed array [1..5] of char;\n    begin\n      name := 'Ada  ';\n      writeln(name, '!')\n    end.\n\nWrites:\n\n    Ada  !\n\nRule: assignment-compatible types (ISO 7185, 6.4.6), which rest on the same type\n(6.4.1) and on compatible types (6.4.5).\n",
    }
}

pub(crate) fn refusal_36_badsubrange() -> Page
    ensures { names_of result ≡ page_names (codes "36 BadSubrange") (codes "BadSubrange") (codes "36") (codes "refusal 36") (codes "error 36 BadSubrange") }
{
    Page {
        title: "36 BadSubrange",
        words: "BadSubrange",
        number: "36",
        named: "refusal 36",
        told: "error 36 BadSubrange",
        text: "A range begins above its end.\n\nWrong:\n\n    program ranges(output);\n    type down = 10..1;\n    var d: down;\n    begin\n      for d := 10 downto 1 do write(d:3)\n    end.\n\nSays:\n\n    refused at line 2: 36 BadSubrange\n\nMend: put the smaller bound first. A loop that goes down has `downto`,\nnot by the type.\n\nRight:\n\n    program ranges(output);\n    type upto10 = 1..10;\n    var d: upto10;\n    begin\n      for d := 10 downto 8 do write(d:3);\n      writeln\n    end.\n\nWrites:\n\n     10  9  8\n\nRule: the first bound of a subrange is not above the second (ISO 7185, 6.4.2.4).\n",
    }
}

pub(crate) fn refusal_37_setbase() -> Page
    ensures { names_of result ≡ page_names (codes "37 SetBase") (codes "SetBase") (codes "37") (codes "refusal 37") (codes "error 37 SetBase") }
{
    Page {
        title: "37 SetBase",
        words: "SetBase",
        number: "37",
        named: "refusal 37",
        told: "error 37 SetBase",
        text: "The members of a set have ordinals from 0 to 255, and this base has others.\n\nWrong:\n\n    program sets(output);\n    var s: set of integer;\n    begin\n      s := [1, 2, 3];\n      if 2 in s then writeln('yes')\n    end.\n\nSays:\n\n    refused at line 2: 37 SetBase\n\nMend: give the range of the members: `set of 0..255` or less, `set of char`, or\na set of an enumeration. For larger numbers use an array of Boolean.\n\nRight:\n\n    program sets(output);\n    var s: set of 1..100;\n    begin\n      s := [1, 2, 3];\n      if 2 in s then writeln('yes')\n    end.\n\nWrites:\n\n    yes\n\nRule: the base of a set is an ordinal type, and the compiler says how large it\nmay be (ISO 7185, 6.4.3.4); here its ordinals lie within 0..255.\n",
    }
}

pub(crate) fn refusal_38_casetwice() -> Page
    ensures { names_of result ≡ page_names (codes "38 CaseTwice") (codes "CaseTwice") (codes "38") (codes "refusal 38") (codes "error 38 CaseTwice") }
{
    Page {
        title: "38 CaseTwice",
        words: "CaseTwice",
        number: "38",
        named: "refusal 38",
        told: "error 38 CaseTwice",
        text: "A `case` has the same constant twice.\n\nWrong:\n\n    program cases(output);\n    var n: integer;\n    begin\n      n := 2;\n      case n of\n        1: writeln('one');\n        2: writeln('two');\n        1: writeln('one again')\n      end\n    end.\n\nSays:\n\n    refused at line 8: 38 CaseTwice\n\nMend: each value has one place: take the constant away in one of them. Where two\nvalues do the same, list both at one place: `1, 3: writeln('odd')`. Two\nconstants with different names may have one value.\n\nRight:\n\n    program cases(output);\n    var n: integer;\n    begin\n      n := 2;\n      case n of\n        1, 3: writeln('odd');\n        2: writeln('two')\n      end\n    end.\n\nWrites:\n\n    two\n\nRule: the constants of a `case` are distinct (ISO 7185, 6.8.3.5).\n",
    }
}

pub(crate) fn refusal_39_controlvariable() -> Page
    ensures { names_of result ≡ page_names (codes "39 ControlVariable") (codes "ControlVariable") (codes "39") (codes "refusal 39") (codes "error 39 ControlVariable") }
{
    Page {
        title: "39 ControlVariable",
        words: "ControlVariable",
        number: "39",
        named: "refusal 39",
        told: "error 39 ControlVariable",
        text: "The variable of a `for` is changed by something else while the loop goes on, or\nit is not declared in the `var` part of the block that contains the loop.\n\nWrong:\n\n    program loop(output);\n    var i: integer;\n    begin\n      for i := 1 to 10 do begin\n        writeln(i:1);\n        if i = 3 then i := 10\n      end\n    end.\n\nSays:\n\n    refused at line 6: 39 ControlVariable\n\nMend: a loop that may end early is a `while` or a `repeat`. If a procedure has a\nloop, declare its variable in that procedure. No procedure within the block may\nassign or read into the variable of a loop of that block, and it can't be passed\nfor a `var` parameter within the loop.\n\nRight:\n\n    program loop(output);\n    var i: integer;\n    begin\n      i := 1;\n      while i <= 10 do begin\n        writeln(i:1);\n        if i = 3 then i := 10;\n        i := i + 1\n      end\n    end.\n\nWrites:\n\n    1\n    2\n    3\n\nWrong:\n\n    program loop(output);\n    var i: integer;\n    procedure line;\n    begin\n      for i := 1 to 10 do write('-');\n      writeln\n    end;\n    begin\n      line\n    end.\n\nSays:\n\n    refused at line 5: 39 ControlVariable\n\nRight:\n\n    program loop(output);\n    procedure line;\n    var i: integer;\n    begin\n      for i := 1 to 10 do write('-');\n      writeln\n    end;\n    begin\n      line\n    end.\n\nWrites:\n\n    ----------\n\nRule: the control variable is declared in the variable part of the block that\nclosest contains the `for`, and nothing there threatens it (ISO 7185, 6.8.3.9).\n",
    }
}

pub(crate) fn refusal_40_packedvariable() -> Page
    ensures { names_of result ≡ page_names (codes "40 PackedVariable") (codes "PackedVariable") (codes "40") (codes "refusal 40") (codes "error 40 PackedVariable") }
{
    Page {
        title: "40 PackedVariable",
        words: "PackedVariable",
        number: "40",
        named: "refusal 40",
        told: "error 40 PackedVariable",
        text: "A component of a packed array or a field of a packed record is passed for a\n`var` parameter.\n\nWrong:\n\n    program pack(output);\n    var word: packed array [1..3] of char;\n    procedure capital(var c: char);\n    begin\n      if c in ['a'..'i'] then c := chr(ord(c) - ord('a') + ord('A'))\n    end;\n    begin\n      word := 'abc';\n      capital(word[1]);\n      writeln(word)\n    end.\n\nSays:\n\n    refused at line 9: 40 PackedVariable\n\nMend: pass a variable of your own, and assign it before and after; or declare\nthe array without `packed`, where it is no string.\n\nRight:\n\n    program pack(output);\n    var word: packed array [1..3] of char; letter: char;\n    procedure capital(var c: char);\n    begin\n      if c in ['a'..'i'] then c := chr(ord(c) - ord('a') + ord('A'))\n    end;\n    begin\n      word := 'abc';\n      letter := word[1]; capital(letter); word[1] := letter;\n      writeln(word)\n    end.\n\nWrites:\n\n    Abc\n\nRule: a component of a packed variable is no actual variable parameter (ISO\n7185, 6.6.3.3).\n",
    }
}

pub(crate) fn refusal_41_notcongruous() -> Page
    ensures { names_of result ≡ page_names (codes "41 NotCongruous") (codes "NotCongruous") (codes "41") (codes "refusal 41") (codes "error 41 NotCongruous") }
{
    Page {
        title: "41 NotCongruous",
        words: "NotCongruous",
        number: "41",
        named: "refusal 41",
        told: "error 41 NotCongruous",
        text: "A procedure or function is called with more or fewer parameters than it has; or\na procedure that is passed as a parameter has another list than is needed.\n\nWrong:\n\n    program count(output);\n    var r: integer;\n    procedure add(a, b: integer; var c: integer);\n    begin\n      c := a + b\n    end;\n    begin\n      add(1, r);\n      writeln(r)\n    end.\n\nSays:\n\n    refused at line 8: 41 NotCongruous\n\nMend: compare the call with the heading: for each name of the heading there is\none actual parameter, in the same order. A procedure without parameters is\ncalled by its name alone, without parentheses.\n\nRight:\n\n    program count(output);\n    var r: integer;\n    procedure add(a, b: integer; var c: integer);\n    begin\n      c := a + b\n    end;\n    begin\n      add(1, 2, r);\n      writeln(r:1)\n    end.\n\nWrites:\n\n    3\n\nRule: as many actual parameters as formal ones (ISO 7185, 6.7.3 and 6.8.2.3),\nand congruous lists of those that are passed (6.6.3.6).\n",
    }
}

pub(crate) fn refusal_42_forwardopen() -> Page
    ensures { names_of result ≡ page_names (codes "42 ForwardOpen") (codes "ForwardOpen") (codes "42") (codes "refusal 42") (codes "error 42 ForwardOpen") }
{
    Page {
        title: "42 ForwardOpen",
        words: "ForwardOpen",
        number: "42",
        named: "refusal 42",
        told: "error 42 ForwardOpen",
        text: "A heading was given in advance with `forward`, and its block never follows.\n\nWrong:\n\n    program ahead(output);\n    procedure hello; forward;\n    procedure greet;\n    begin\n      hello\n    end;\n    begin\n      greet\n    end.\n\nSays:\n\n    refused at line 2: 42 ForwardOpen\n\nMend: let the procedure follow in the same block, by its name alone and without\nits parameters. If it need not come after others, write it in place of the\nheading.\n\nRight:\n\n    program ahead(output);\n    procedure hello; forward;\n    procedure greet;\n    begin\n      hello\n    end;\n    procedure hello;\n    begin\n      writeln('hello')\n    end;\n    begin\n      greet\n    end.\n\nWrites:\n\n    hello\n\nRule: to each heading with the directive `forward` there is one block (ISO 7185,\n6.6.1 and 6.6.2).\n",
    }
}

pub(crate) fn refusal_43_noresultassigned() -> Page
    ensures { names_of result ≡ page_names (codes "43 NoResultAssigned") (codes "NoResultAssigned") (codes "43") (codes "refusal 43") (codes "error 43 NoResultAssigned") }
{
    Page {
        title: "43 NoResultAssigned",
        words: "NoResultAssigned",
        number: "43",
        named: "refusal 43",
        told: "error 43 NoResultAssigned",
        text: "A function never gets its result: in its block nothing is assigned to its name.\n\nWrong:\n\n    program square(output);\n    var s: integer;\n    function sq(n: integer): integer;\n    begin\n      s := n * n\n    end;\n    begin\n      writeln(sq(3))\n    end.\n\nSays:\n\n    refused at line 3: 43 NoResultAssigned\n\nMend: assign the result to the function's name: `sq := n * n`. There is no\n`return` and no `result`. Where nothing is to be given back, it is a procedure.\n\nRight:\n\n    program square(output);\n    function sq(n: integer): integer;\n    begin\n      sq := n * n\n    end;\n    begin\n      writeln(sq(3):1)\n    end.\n\nWrites:\n\n    9\n\nRule: a function's block has at least one assignment to its name (ISO 7185,\n6.6.2).\n",
    }
}

pub(crate) fn refusal_44_noinputoutput() -> Page
    ensures { names_of result ≡ page_names (codes "44 NoInputOutput") (codes "NoInputOutput") (codes "44") (codes "refusal 44") (codes "error 44 NoInputOutput") }
{
    Page {
        title: "44 NoInputOutput",
        words: "NoInputOutput",
        number: "44",
        named: "refusal 44",
        told: "error 44 NoInputOutput",
        text: "The program reads or writes, and its heading doesn't list `input` or `output`.\n\nWrong:\n\n    program heading;\n    begin\n      writeln('hello')\n    end.\n\nSays:\n\n    refused at line 3: 44 NoInputOutput\n\nMend: a program that writes begins with `program name(output);`, one that reads\nwith `program name(input, output);`.\n\nRight:\n\n    program heading(output);\n    begin\n      writeln('hello')\n    end.\n\nWrites:\n\n    hello\n\nRule: `input` and `output` are used only where they are program parameters (ISO\n7185, 6.10 and 6.9.1 to 6.9.4).\n",
    }
}

pub(crate) fn refusal_45_limit() -> Page
    ensures { names_of result ≡ page_names (codes "45 Limit") (codes "Limit") (codes "45") (codes "refusal 45") (codes "error 45 Limit") }
{
    Page {
        title: "45 Limit",
        words: "Limit",
        number: "45",
        named: "refusal 45",
        told: "error 45 Limit",
        text: "The program is larger than this compiler takes: a type or the variables of a\nprocedure have more than 100,000 cells, a heading more than 32 parameters, or\nprocedures lie more than 15 deep in one another.\n\nWrong:\n\n    program large(output);\n    var screen: array [1..1000, 1..1000] of Boolean;\n    begin\n      screen[1, 1] := true;\n      writeln(screen[1, 1])\n    end.\n\nSays:\n\n    refused at line 2: 45 Limit\n\nMend: make arrays smaller. A cell is a number, a character, a Boolean or a\npointer, packed or not; a set takes 8. Variables of 100,000 cells fit into the\nprogram block and into each procedure, and each object that `new` makes may have\nas many.\n\nRight:\n\n    program large(output);\n    type line = array [1..1000] of Boolean;\n    var screen: array [1..1000] of ^line;\n    begin\n      new(screen[1]);\n      screen[1]^[1] := true;\n      writeln(screen[1]^[1])\n    end.\n\nWrites:\n\n     true\n\nRule: limits of this compiler, listed in docs/LANGUAGE.md under Limits. The\nstandard sets none (ISO 7185, 1.2).\n",
    }
}

pub(crate) fn refusal_50_codetoolarge() -> Page
    ensures { names_of result ≡ page_names (codes "50 CodeTooLarge") (codes "CodeTooLarge") (codes "50") (codes "refusal 50") (codes "error 50 CodeTooLarge") }
{
    Page {
        title: "50 CodeTooLarge",
        words: "CodeTooLarge",
        number: "50",
        named: "refusal 50",
        told: "error 50 CodeTooLarge",
        text: "The program is right, and its code would have more than 1,048,576 words, which\nis all that an image holds.\n\nWrong:\n\n    program code(output);\n    var a: array [1..9] of char; i: integer;\n    begin\n    { 22500 times } a[i]:=a[i];a[i]:=a[i];a[i]:=a[i];a[i]:=a[i];\n      i := 1\n    end.\n\nSays:\n\n    refused: 50 CodeTooLarge\n\nMend: what is written out again and again becomes a procedure or a loop. A\n`new`, and a procedure with large records, write the first value of each field:\nan array in place of many fields is smaller.\n\nRight:\n\n    program code(output);\n    var a: array [1..9] of char; i: integer;\n    begin\n      for i := 1 to 9 do a[i] := '-';\n      for i := 1 to 9 do write(a[i]);\n      writeln\n    end.\n\nWrites:\n\n    ---------\n\nRule: a limit of this compiler and its processor. The standard sets none (ISO\n7185, 1.2).\n",
    }
}

pub(crate) fn refusal_51_badplacement() -> Page
    ensures { names_of result ≡ page_names (codes "51 BadPlacement") (codes "BadPlacement") (codes "51") (codes "refusal 51") (codes "error 51 BadPlacement") }
{
    Page {
        title: "51 BadPlacement",
        words: "BadPlacement",
        number: "51",
        named: "refusal 51",
        told: "error 51 BadPlacement",
        text: "The compiler chose places for the values of a formula that it can't use. It\nnever says so: each choice is right, which is proved. The number is kept for\nprograms that use this compiler's parts by themselves.\n\nMend: if you see it, the program is not the one that was proved.\n\nRule: none of the language.\n",
    }
}

pub(crate) fn refusal_60_magic() -> Page
    ensures { names_of result ≡ page_names (codes "60 Magic") (codes "Magic") (codes "60") (codes "refusal 60") (codes "error 60 Magic") }
{
    Page {
        title: "60 Magic",
        words: "Magic",
        number: "60",
        named: "refusal 60",
        told: "error 60 Magic",
        text: "The file that is to be run is no image: it begins otherwise.\n\nSession:\n\n    $ pascal run hello.pas\n    refused: 60 Magic\n\nFile hello.pas:\n\n    program hello(output);\n    begin\n      writeln('hello')\n    end.\n\nMend: `pascal go` runs a text. `pascal run` runs an image, which `pascal\ncompile` makes of a text.\n\nSession:\n\n    $ pascal go hello.pas\n    hello\n    $ pascal compile hello.pas hello.img\n    $ pascal run hello.img\n    hello\n\nRule: the form of images, described in docs/MACHINE.md.\n",
    }
}

pub(crate) fn refusal_61_truncated() -> Page
    ensures { names_of result ≡ page_names (codes "61 Truncated") (codes "Truncated") (codes "61") (codes "refusal 61") (codes "error 61 Truncated") }
{
    Page {
        title: "61 Truncated",
        words: "Truncated",
        number: "61",
        named: "refusal 61",
        told: "error 61 Truncated",
        text: "The image is shorter than it says: a part of it is lost.\n\nSession:\n\n    $ pascal compile hello.pas hello.img\n    $ head -c 100 hello.img > part.img\n    $ pascal run part.img\n    refused: 61 Truncated\n\nFile hello.pas:\n\n    program hello(output);\n    begin\n      writeln('hello')\n    end.\n\nMend: copy the image again, or make it anew by `pascal compile`. A copy over a\nnetwork may have been broken off, or the disk may be full.\n\nSession:\n\n    $ pascal compile hello.pas hello.img\n    $ cp hello.img copy.img\n    $ pascal run copy.img\n    hello\n\nRule: the form of images, described in docs/MACHINE.md.\n",
    }
}

pub(crate) fn refusal_62_trailing() -> Page
    ensures { names_of result ≡ page_names (codes "62 Trailing") (codes "Trailing") (codes "62") (codes "refusal 62") (codes "error 62 Trailing") }
{
    Page {
        title: "62 Trailing",
        words: "Trailing",
        number: "62",
        named: "refusal 62",
        told: "error 62 Trailing",
        text: "The image is longer than it says: something follows its end.\n\nSession:\n\n    $ pascal compile hello.pas hello.img\n    $ (cat hello.img; echo more) > more.img\n    $ pascal run more.img\n    refused: 62 Trailing\n\nFile hello.pas:\n\n    program hello(output);\n    begin\n      writeln('hello')\n    end.\n\nMend: make the image anew by `pascal compile`. Some programs add to what they\ncopy, as an end of a line.\n\nSession:\n\n    $ pascal compile hello.pas hello.img\n    $ pascal run hello.img\n    hello\n\nRule: the form of images, described in docs/MACHINE.md.\n",
    }
}

pub(crate) fn refusal_63_toolarge() -> Page
    ensures { names_of result ≡ page_names (codes "63 TooLarge") (codes "TooLarge") (codes "63") (codes "refusal 63") (codes "error 63 TooLarge") }
{
    Page {
        title: "63 TooLarge",
        words: "TooLarge",
        number: "63",
        named: "refusal 63",
        told: "error 63 TooLarge",
        text: "The image, or a count in its first bytes, is larger than an image may be.\n\nSession:\n\n    $ pascal run large.img\n    refused: 63 TooLarge\n\nBytes large.img:\n\n    50524931 00000000 01001000 00000000 00000000 00000000\n\nMend: make the image anew by `pascal compile`. Its first bytes are damaged, or\nit is no image of this compiler.\n\nFile hello.pas:\n\n    program hello(output);\n    begin\n      writeln('hello')\n    end.\n\nSession:\n\n    $ pascal compile hello.pas hello.img\n    $ pascal run hello.img\n    hello\n\nRule: the form of images, described in docs/MACHINE.md.\n",
    }
}

pub(crate) fn refusal_64_badtable() -> Page
    ensures { names_of result ≡ page_names (codes "64 BadTable") (codes "BadTable") (codes "64") (codes "refusal 64") (codes "error 64 BadTable") }
{
    Page {
        title: "64 BadTable",
        words: "BadTable",
        number: "64",
        named: "refusal 64",
        told: "error 64 BadTable",
        text: "The image's tables can't be right: it has no code, an address lies outside its\ncode, or a number of an error or of a line is none.\n\nSession:\n\n    $ pascal run none.img\n    refused: 64 BadTable\n\nBytes none.img:\n\n    50524931 00000000 00000000 00000000 00000000 00000000\n\nMend: make the image anew by `pascal compile`. It was damaged or changed.\n\nFile hello.pas:\n\n    program hello(output);\n    begin\n      writeln('hello')\n    end.\n\nSession:\n\n    $ pascal compile hello.pas hello.img\n    $ pascal run hello.img\n    hello\n\nRule: the form of images, described in docs/MACHINE.md.\n",
    }
}

pub(crate) fn refusal_70_budgettoolarge() -> Page
    ensures { names_of result ≡ page_names (codes "70 BudgetTooLarge") (codes "BudgetTooLarge") (codes "70") (codes "refusal 70") (codes "error 70 BudgetTooLarge") }
{
    Page {
        title: "70 BudgetTooLarge",
        words: "BudgetTooLarge",
        number: "70",
        named: "refusal 70",
        told: "error 70 BudgetTooLarge",
        text: "Code, variables, stack and heap together don't fit into the machine, which has\n16,777,152 bytes.\n\nSession:\n\n    $ pascal go --stack 16777152 hello.pas\n    refused: 70 BudgetTooLarge\n\nFile hello.pas:\n\n    program hello(output);\n    begin\n      writeln('hello')\n    end.\n\nMend: ask for less. Stack and heap together must leave room for the code; where\nthe program has no `new`, say `--heap 0`.\n\nSession:\n\n    $ pascal go --stack 16000000 --heap 0 hello.pas\n    hello\n\nRule: none of the language. The machine is described in docs/MACHINE.md.\n",
    }
}

pub(crate) fn refusal_71_budgetuneven() -> Page
    ensures { names_of result ≡ page_names (codes "71 BudgetUneven") (codes "BudgetUneven") (codes "71") (codes "refusal 71") (codes "error 71 BudgetUneven") }
{
    Page {
        title: "71 BudgetUneven",
        words: "BudgetUneven",
        number: "71",
        named: "refusal 71",
        told: "error 71 BudgetUneven",
        text: "The stack or the heap that was asked for is not a multiple of 4 bytes.\n\nSession:\n\n    $ pascal go --stack 1001 hello.pas\n    refused: 71 BudgetUneven\n\nFile hello.pas:\n\n    program hello(output);\n    begin\n      writeln('hello')\n    end.\n\nMend: take the next multiple of 4.\n\nSession:\n\n    $ pascal go --stack 1004 hello.pas\n    hello\n\nRule: none of the language. The machine works in words of 4 bytes, see\ndocs/MACHINE.md.\n",
    }
}
