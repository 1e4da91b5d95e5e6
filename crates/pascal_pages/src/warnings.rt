//! The pages of docs/EXPLAIN.md on what is warned of, each in a function of its own. Written by tools/explain.

ghost use Rattle.std.specs.Prelude.{◌≡◌, codes};
ghost use Rattle.pascal_pages.specs.Asked.{names_of, page_names};

use crate::Page;

pub(crate) fn warning_81_emptystatement() -> Page
    ensures { names_of result ≡ page_names (codes "81 EmptyStatement") (codes "EmptyStatement") (codes "81") (codes "warning 81") (codes "warning 81 EmptyStatement") }
{
    Page {
        title: "81 EmptyStatement",
        words: "EmptyStatement",
        number: "81",
        named: "warning 81",
        told: "warning 81 EmptyStatement",
        text: "A `;` comes right after `do`, `then` or `else`. It ends the statement there,\nso that nothing is done in the loop or by the `if`, and what follows is done\nonce, whatever the condition says. A warning refuses nothing: the program runs,\nbut hardly as it was meant.\n\nFile empty.pas:\n\n    program count(output);\n    var i: integer;\n    begin\n      for i := 1 to 3 do;\n        writeln('hello')\n    end.\n\nSession:\n\n    $ pascal check empty.pas\n    empty.pas:4:21: warning 81 EmptyStatement: this `;` ends the `for`: nothing is done in it\n      4 |   for i := 1 to 3 do;\n        |                     ^\n        |   --- the `for`\n      mend: remove `;` at 4:21 (tried: the text is then accepted)\n    $ pascal go empty.pas\n    hello\n\nMend: remove the `;`. A comment after `do` says that nothing is meant to be\ndone.\n\nFile times.pas:\n\n    program count(output);\n    var i: integer;\n    begin\n      for i := 1 to 3 do\n        writeln('hello')\n    end.\n\nSession:\n\n    $ pascal check times.pas\n    $ pascal go times.pas\n    hello\n    hello\n    hello\n\nRule: a statement may be empty (ISO 7185, 6.8.2.1), and `;` comes between two\nstatements (6.8.3.2).\n",
    }
}

pub(crate) fn warning_82_indentation() -> Page
    ensures { names_of result ≡ page_names (codes "82 Indentation") (codes "Indentation") (codes "82") (codes "warning 82") (codes "warning 82 Indentation") }
{
    Page {
        title: "82 Indentation",
        words: "Indentation",
        number: "82",
        named: "warning 82",
        told: "warning 82 Indentation",
        text: "A line is indented as if it were in the loop or the `if` above it, and is not:\nthat one ended before. Or an `else` is below an `if` that is not its own. A\nwarning refuses nothing: the program runs, but not as its lines look.\n\nFile both.pas:\n\n    program count(output);\n    var i: integer;\n    begin\n      i := 1;\n      while i <= 3 do\n        i := i + 1;\n        writeln(i)\n    end.\n\nSession:\n\n    $ pascal check both.pas\n    both.pas:7:5: warning 82 Indentation: this line is indented as if it were in the `while` above it, but it is not\n      5 |   while i <= 3 do\n        |   ----- this `while` ends at 6:15\n      7 |     writeln(i)\n        |     ^^^^^^^\n      help: several statements count as one between `begin` and `end`\n    $ pascal go both.pas\n              4\n\nMend: several statements are one between `begin` and `end`. If\nthe line is right as it is, indent it less. An `else` is that of the nearest\n`if` that has none: for one further out, put the nearer one between `begin`\nand `end`.\n\nFile loop.pas:\n\n    program count(output);\n    var i: integer;\n    begin\n      i := 1;\n      while i <= 3 do begin\n        i := i + 1;\n        writeln(i)\n      end\n    end.\n\nSession:\n\n    $ pascal check loop.pas\n    $ pascal go loop.pas\n              2\n              3\n              4\n\nRule: a loop has one statement, an `else` belongs to the nearest `if` without\none, and spaces mean nothing to Pascal (ISO 7185, 6.1.8, 6.8.3.2 and 6.8.3.4).\n",
    }
}

pub(crate) fn warning_83_neverassigned() -> Page
    ensures { names_of result ≡ page_names (codes "83 NeverAssigned") (codes "NeverAssigned") (codes "83") (codes "warning 83") (codes "warning 83 NeverAssigned") }
{
    Page {
        title: "83 NeverAssigned",
        words: "NeverAssigned",
        number: "83",
        named: "warning 83",
        told: "warning 83 NeverAssigned",
        text: "A variable is used, and no statement of the program gives it a value. It has its\nfirst value wherever it is used: 0, `false`, the first of its type, `nil` or the\nempty set.\n\nFile total.pas:\n\n    program total(output);\n    var sum, i: integer;\n    begin\n      for i := 1 to 3 do writeln(sum + i)\n    end.\n\nSession:\n\n    $ pascal check total.pas\n    total.pas:4:30: warning 83 NeverAssigned: `sum` is used, but never gets a value: it is always 0\n      2 | var sum, i: integer;\n        |     --- `sum` is declared here\n      4 |   for i := 1 to 3 do writeln(sum + i)\n        |                              ^^^\n    $ pascal go total.pas\n              1\n              2\n              3\n\nMend: assign a value before, or read one. If another variable was meant, write\nits name.\n\nFile begun.pas:\n\n    program total(output);\n    var sum, i: integer;\n    begin\n      sum := 10;\n      for i := 1 to 3 do writeln(sum + i)\n    end.\n\nSession:\n\n    $ pascal check begun.pas\n    $ pascal go begun.pas\n             11\n             12\n             13\n\nRule: the standard gives variables no first value (ISO 7185, 6.2.3); this\ncompiler does.\n",
    }
}

pub(crate) fn warning_84_loopunchanged() -> Page
    ensures { names_of result ≡ page_names (codes "84 LoopUnchanged") (codes "LoopUnchanged") (codes "84") (codes "warning 84") (codes "warning 84 LoopUnchanged") }
{
    Page {
        title: "84 LoopUnchanged",
        words: "LoopUnchanged",
        number: "84",
        named: "warning 84",
        told: "warning 84 LoopUnchanged",
        text: "The condition of a loop looks at nothing but variables that nothing in the loop\nchanges. So what it says first it says always: the loop is never done, or never\nends.\n\nFile forever.pas:\n\n    program powers(output);\n    var n: integer;\n    begin\n      n := 1;\n      while n < 10 do writeln(n)\n    end.\n\nSession:\n\n    $ pascal check forever.pas\n    forever.pas:5:3: warning 84 LoopUnchanged: nothing in this `while` changes `n`, which is all that its condition looks at\n      5 |   while n < 10 do writeln(n)\n        |   ^^^^^\n      help: its statement is only the one at 5:19; put several between `begin` and `end`\n\nMend: change one of the variables in the loop; a loop of several statements has\n`begin` and `end`.\n\nFile powers.pas:\n\n    program powers(output);\n    var n: integer;\n    begin\n      n := 1;\n      while n < 10 do begin\n        writeln(n);\n        n := n * 2\n      end\n    end.\n\nSession:\n\n    $ pascal check powers.pas\n    $ pascal go powers.pas\n              1\n              2\n              4\n              8\n\nRule: a `while` is done as long as its condition is true, a `repeat` until it is\n(ISO 7185, 6.8.3.7 and 6.8.3.8).\n",
    }
}

pub(crate) fn warning_85_valueparameter() -> Page
    ensures { names_of result ≡ page_names (codes "85 ValueParameter") (codes "ValueParameter") (codes "85") (codes "warning 85") (codes "warning 85 ValueParameter") }
{
    Page {
        title: "85 ValueParameter",
        words: "ValueParameter",
        number: "85",
        named: "warning 85",
        told: "warning 85 ValueParameter",
        text: "The last that a procedure or function does with a parameter is to assign to it,\nand the parameter is a value parameter: a variable of its own, which is gone\nwhen the routine ends. The variable that was passed stays as it was.\n\nFile lost.pas:\n\n    program twice(output);\n    var n: integer;\n    procedure double(m: integer);\n    begin\n      m := 2 * m\n    end;\n    begin\n      n := 4;\n      double(n);\n      writeln(n)\n    end.\n\nSession:\n\n    $ pascal check lost.pas\n    lost.pas:3:18: warning 85 ValueParameter: what is assigned to `m` is lost where `double` ends: it is a value parameter\n      3 | procedure double(m: integer);\n        |                  ^\n      mend: put `var` before `m` at 3:18 (tried: the text is then accepted)\n      help: a parameter declared with `var` is the variable that is passed\n    $ pascal go lost.pas\n              4\n\nMend: write `var` before the parameter: it then denotes the variable that is\npassed. A value that is computed is better given back by a function.\n\nFile kept.pas:\n\n    program twice(output);\n    var n: integer;\n    procedure double(var m: integer);\n    begin\n      m := 2 * m\n    end;\n    begin\n      n := 4;\n      double(n);\n      writeln(n)\n    end.\n\nSession:\n\n    $ pascal check kept.pas\n    $ pascal go kept.pas\n              8\n\nRule: value and variable parameters are distinguished by `var` (ISO 7185,\n6.6.3.2 and 6.6.3.3).\n",
    }
}

pub(crate) fn warning_86_hidden() -> Page
    ensures { names_of result ≡ page_names (codes "86 Hidden") (codes "Hidden") (codes "86") (codes "warning 86") (codes "warning 86 Hidden") }
{
    Page {
        title: "86 Hidden",
        words: "Hidden",
        number: "86",
        named: "warning 86",
        told: "warning 86 Hidden",
        text: "A routine declares a variable of a name that the block around declares too,\nassigns to it, and never uses it. The variable outside, which was perhaps meant,\nstays as it was.\n\nFile hidden.pas:\n\n    program high(output);\n    var best: integer;\n    procedure note(n: integer);\n    var best: integer;\n    begin\n      best := n\n    end;\n    begin\n      best := 0;\n      note(7);\n      writeln(best)\n    end.\n\nSession:\n\n    $ pascal check hidden.pas\n    hidden.pas:4:5: warning 86 Hidden: `best` hides a variable of the surrounding block\n      2 | var best: integer;\n        |     ---- the `best` that is hidden\n      4 | var best: integer;\n        |     ^^^^\n      help: nothing uses what is assigned to it; without its declaration it is the one of the surrounding block\n    $ pascal go hidden.pas\n              0\n\nMend: leave the declaration out: the name is then that of the block around. If\nthe two are different things, give them different names.\n\nFile shown.pas:\n\n    program high(output);\n    var best: integer;\n    procedure note(n: integer);\n    begin\n      best := n\n    end;\n    begin\n      best := 0;\n      note(7);\n      writeln(best)\n    end.\n\nSession:\n\n    $ pascal check shown.pas\n    $ pascal go shown.pas\n              7\n\nRule: a name means what the innermost block that declares it says (ISO 7185,\n6.2.2.5).\n",
    }
}

pub(crate) fn warning_87_unreached() -> Page
    ensures { names_of result ≡ page_names (codes "87 Unreached") (codes "Unreached") (codes "87") (codes "warning 87") (codes "warning 87 Unreached") }
{
    Page {
        title: "87 Unreached",
        words: "Unreached",
        number: "87",
        named: "warning 87",
        told: "warning 87 Unreached",
        text: "A loop's condition is always `true`, or its `until` always `false`. Such a loop\nends with the program or never, so the statements after it are never executed.\nOr a `for` goes up from a number to a smaller one, or down to a larger one: then\nits own statement is never done.\n\nFile never.pas:\n\n    program ask(input, output);\n    var n: integer;\n    begin\n      while true do begin\n        read(n);\n        writeln(2 * n)\n      end;\n      writeln('done')\n    end.\n\nSession:\n\n    $ pascal check never.pas\n    never.pas:4:3: warning 87 Unreached: nothing after this `while` is ever done: its condition is always true\n      4 |   while true do begin\n        |   ^^^^^\n      8 |   writeln('done')\n        |   ------- this is never done\n\nMend: give the loop a condition by which it ends, or leave out what comes\nafter it. A `for` that goes down has `downto`.\n\nFile until.pas:\n\n    program ask(input, output);\n    var n: integer;\n    begin\n      repeat\n        read(n);\n        writeln(2 * n)\n      until n = 0;\n      writeln('done')\n    end.\n\nSession:\n\n    $ pascal check until.pas\n\nRule: a `while` is done as long as its condition is true, a `repeat` until it is\n(ISO 7185, 6.8.3.7 and 6.8.3.8).\n",
    }
}

pub(crate) fn warning_88_directive() -> Page
    ensures { names_of result ≡ page_names (codes "88 Directive") (codes "Directive") (codes "88") (codes "warning 88") (codes "warning 88 Directive") }
{
    Page {
        title: "88 Directive",
        words: "Directive",
        number: "88",
        named: "warning 88",
        told: "warning 88 Directive",
        text: "A comment begins with `$`. Other compilers take it as an order, to test ranges\nor to leave the tests out, say. Here it is a comment like any other.\n\nFile checks.pas:\n\n    program checks(output);\n    {$R+}\n    begin\n      writeln('hello')\n    end.\n\nSession:\n\n    $ pascal check checks.pas\n    checks.pas:2:1: warning 88 Directive: `{$R+}` is a comment here\n      2 | {$R+}\n        | ^^^^^\n      help: It is a comment here: ranges, overflow and `nil` are always tested.\n    $ pascal go checks.pas\n    hello\n\nMend: take it away. Ranges, overflow, indices and `nil` are always tested.\n\nFile plain.pas:\n\n    program checks(output);\n    { an index out of range is always reported }\n    begin\n      writeln('hello')\n    end.\n\nSession:\n\n    $ pascal check plain.pas\n    $ pascal go plain.pas\n    hello\n\nRule: comments mean nothing to Pascal (ISO 7185, 6.1.8).\n",
    }
}

pub(crate) fn warning_89_outofrange() -> Page
    ensures { names_of result ≡ page_names (codes "89 OutOfRange") (codes "OutOfRange") (codes "89") (codes "warning 89") (codes "warning 89 OutOfRange") }
{
    Page {
        title: "89 OutOfRange",
        words: "OutOfRange",
        number: "89",
        named: "warning 89",
        told: "warning 89 OutOfRange",
        text: "A constant lies outside of what its place takes: an index that the array doesn't\nhave, a value that the variable can't have, a field width below 1, or a divisor\nof 0. A warning refuses nothing: the program runs, and an error ends it where it\ncomes to that.\n\nFile outside.pas:\n\n    program table(output);\n    var a: array [1..3] of integer;\n    begin\n      writeln('begins');\n      a[0] := 5;\n      a[1] := 6;\n      writeln(a[1]:1)\n    end.\n\nSession:\n\n    $ pascal check outside.pas\n    outside.pas:5:5: warning 89 OutOfRange: `a` has nothing at this index: its indices are 1 to 3\n      2 | var a: array [1..3] of integer;\n        |     - `a` is declared here\n      5 |   a[0] := 5;\n        |     ^\n    $ pascal go outside.pas\n    begins\n    line 5: index out of range\n\nMend: write a constant that the place takes, or let the declaration take it: an\narray begins where its declaration says, as at 0 in `array [0..2]`. The least\nwidth is 1: `n:1` writes a number without spaces before it. A string needs no\nwidth at all.\n\nFile within.pas:\n\n    program table(output);\n    var a: array [0..2] of integer;\n    begin\n      writeln('begins');\n      a[0] := 5;\n      a[1] := 6;\n      writeln(a[1]:1)\n    end.\n\nSession:\n\n    $ pascal check within.pas\n    $ pascal go within.pas\n    begins\n    6\n\nRule: an index lies within the array's index type, a value within the type, a\nfield width is at least one, and no divisor is 0 (ISO 7185, 6.5.3.2, 6.4.6,\n6.9.3.1 and 6.7.2.2).\n",
    }
}

pub(crate) fn warning_90_nestedcomment() -> Page
    ensures { names_of result ≡ page_names (codes "90 NestedComment") (codes "NestedComment") (codes "90") (codes "warning 90") (codes "warning 90 NestedComment") }
{
    Page {
        title: "90 NestedComment",
        words: "NestedComment",
        number: "90",
        named: "warning 90",
        told: "warning 90 NestedComment",
        text: "A comment goes on past its first line, a statement or a declaration is in it,\nand then another comment seems to begin: the first one was hardly meant to be as\nlong as that. A warning refuses nothing: the program runs, without what is in\nthe comment.\n\nFile swallowed.pas:\n\n    program count(output);\n    var n: integer;\n    begin\n      n := 1; { the first value\n      n := n + 1; { the next one }\n      writeln(n:1)\n    end.\n\nSession:\n\n    $ pascal check swallowed.pas\n    swallowed.pas:4:11: warning 90 NestedComment: this comment is not closed on its line, and another one seems to begin in it\n      4 |   n := 1; { the first value\n        |           ^^^^^^^^^^^^^^^^^\n      5 |   n := n + 1; { the next one }\n        |               - a comment seems to begin here\n      mend: put `}` after `value` at 4:28 (tried: the text is then accepted)\n      help: a comment ends at its first `}` or `*)`, even if another one begins inside it\n    $ pascal go swallowed.pas\n    1\n\nMend: put `}` or `*)` where the first comment ends. To make statements a comment\nthat have comments of their own, take those away.\n\nFile closed.pas:\n\n    program count(output);\n    var n: integer;\n    begin\n      n := 1; { the first value }\n      n := n + 1; { the next one }\n      writeln(n:1)\n    end.\n\nSession:\n\n    $ pascal check closed.pas\n    $ pascal go closed.pas\n    2\n\nRule: a comment ends at the first `}` or `*)` after its beginning (ISO 7185,\n6.1.8).\n",
    }
}
