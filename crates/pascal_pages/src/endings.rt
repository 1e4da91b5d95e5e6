//! The pages of docs/EXPLAIN.md on how runs and commands end, each in a function of its own. Written by tools/explain.

ghost use Rattle.std.specs.Prelude.{◌≡◌, codes};
ghost use Rattle.pascal_pages.specs.Asked.{names_of, page_names};

use crate::Page;

pub(crate) fn error_1_integer_overflow() -> Page
    ensures { names_of result ≡ page_names (codes "Error 1: integer overflow") (codes "integer overflow") (codes "1") (codes "error 1") (codes "Error 1: integer overflow") }
{
    Page {
        title: "Error 1: integer overflow",
        words: "integer overflow",
        number: "1",
        named: "error 1",
        told: "Error 1: integer overflow",
        text: "A result is above 2147483647 or below -2147483648, the limits of integers.\n\nWrong:\n\n    program factorials(output);\n    var n, f: integer;\n    begin\n      f := 1;\n      for n := 1 to 20 do f := f * n;\n      writeln(f)\n    end.\n\nSays:\n\n    line 5: integer overflow\n\nMend: see how large the values get; here 13 times 12! is too much. Divide before\nyou multiply, where nothing is lost by it, or test first: `if f <= maxint div\nn`. For numbers of more digits keep the digits in an array.\n\nRight:\n\n    program factorials(output);\n    var n, f: integer;\n    begin\n      f := 1;\n      for n := 1 to 20 do\n        if f <= maxint div n then f := f * n;\n      writeln(f:1)\n    end.\n\nWrites:\n\n    479001600\n\nRule: a result outside the integers is an error (ISO 7185, 6.7.2.2), that of\n`abs` and `sqr` too (6.6.6.2).\n",
    }
}

pub(crate) fn error_2_division_by_zero() -> Page
    ensures { names_of result ≡ page_names (codes "Error 2: division by zero") (codes "division by zero") (codes "2") (codes "error 2") (codes "Error 2: division by zero") }
{
    Page {
        title: "Error 2: division by zero",
        words: "division by zero",
        number: "2",
        named: "error 2",
        told: "Error 2: division by zero",
        text: "The number after `div` is 0.\n\nWrong:\n\n    program average(output);\n    var sum, count: integer;\n    begin\n      sum := 0; count := 0;\n      writeln(sum div count)\n    end.\n\nSays:\n\n    line 5: division by zero\n\nMend: test the divisor first. `and` doesn't help here, since both sides of it\nare always computed: write one `if` within the other.\n\nRight:\n\n    program average(output);\n    var sum, count: integer;\n    begin\n      sum := 0; count := 0;\n      if count > 0 then writeln(sum div count:1)\n      else writeln('no numbers')\n    end.\n\nWrites:\n\n    no numbers\n\nRule: `i div 0` is an error (ISO 7185, 6.7.2.2).\n",
    }
}

pub(crate) fn error_3_modulus_below_one() -> Page
    ensures { names_of result ≡ page_names (codes "Error 3: modulus below one") (codes "modulus below one") (codes "3") (codes "error 3") (codes "Error 3: modulus below one") }
{
    Page {
        title: "Error 3: modulus below one",
        words: "modulus below one",
        number: "3",
        named: "error 3",
        told: "Error 3: modulus below one",
        text: "The number after `mod` is 0 or less.\n\nWrong:\n\n    program clock(output);\n    var hours, day: integer;\n    begin\n      hours := 30; day := -24;\n      writeln(hours mod day)\n    end.\n\nSays:\n\n    line 5: modulus below one\n\nMend: the modulus is at least 1. The result is never below 0, so `-1 mod 12` in\nparentheses, `(-1) mod 12`, is 11.\n\nRight:\n\n    program clock(output);\n    var hours, day: integer;\n    begin\n      hours := 30; day := 24;\n      writeln(hours mod day:1, (-1) mod 12:3)\n    end.\n\nWrites:\n\n    6 11\n\nRule: `i mod j` with j of 0 or less is an error (ISO 7185, 6.7.2.2).\n",
    }
}

pub(crate) fn error_4_value_out_of_range() -> Page
    ensures { names_of result ≡ page_names (codes "Error 4: value out of range") (codes "value out of range") (codes "4") (codes "error 4") (codes "Error 4: value out of range") }
{
    Page {
        title: "Error 4: value out of range",
        words: "value out of range",
        number: "4",
        named: "error 4",
        told: "Error 4: value out of range",
        text: "A value is assigned, passed or read that the type of its variable doesn't have;\nor `chr`, `succ` or `pred` has no such value.\n\nWrong:\n\n    program marks(output);\n    var mark: 1..6;\n    begin\n      mark := 5;\n      mark := mark + 2;\n      writeln(mark)\n    end.\n\nSays:\n\n    line 5: value out of range\n\nMend: test the value before you assign it, or give the variable a wider type.\nThe last value of a type has no `succ`, the first no `pred`: leave the loop\nbefore.\n\nRight:\n\n    program marks(output);\n    var mark: 1..6;\n    begin\n      mark := 5;\n      if mark + 2 <= 6 then mark := mark + 2 else mark := 6;\n      writeln(mark:1)\n    end.\n\nWrites:\n\n    6\n\nRule: the value lies within the type (ISO 7185, 6.4.6); `chr`, `succ` and `pred`\nhave a value (6.6.6.4).\n",
    }
}

pub(crate) fn error_5_index_out_of_range() -> Page
    ensures { names_of result ≡ page_names (codes "Error 5: index out of range") (codes "index out of range") (codes "5") (codes "error 5") (codes "Error 5: index out of range") }
{
    Page {
        title: "Error 5: index out of range",
        words: "index out of range",
        number: "5",
        named: "error 5",
        told: "Error 5: index out of range",
        text: "An array is used at an index that it doesn't have.\n\nWrong:\n\n    program table(output);\n    var a: array [1..3] of integer; i: integer;\n    begin\n      for i := 0 to 3 do a[i] := i * i;\n      writeln(a[3])\n    end.\n\nSays:\n\n    line 4: index out of range\n\nMend: see where the index begins and ends; often a loop goes one too far. In\n`while (i <= 3) and (a[i] <> 0)` the second side is computed too when i is 4:\ntest it in an `if` of its own.\n\nRight:\n\n    program table(output);\n    var a: array [1..3] of integer; i: integer;\n    begin\n      for i := 1 to 3 do a[i] := i * i;\n      writeln(a[3]:1)\n    end.\n\nWrites:\n\n    9\n\nRule: an index lies within the array's index type (ISO 7185, 6.5.3.2).\n",
    }
}

pub(crate) fn error_6_nil_pointer() -> Page
    ensures { names_of result ≡ page_names (codes "Error 6: nil pointer") (codes "nil pointer") (codes "6") (codes "error 6") (codes "Error 6: nil pointer") }
{
    Page {
        title: "Error 6: nil pointer",
        words: "nil pointer",
        number: "6",
        named: "error 6",
        told: "Error 6: nil pointer",
        text: "A pointer that is `nil`, which points to nothing, is followed by `^`.\n\nWrong:\n\n    program list(output);\n    type link = ^node;\n         node = record value: integer; next: link end;\n    var first: link;\n    begin\n      first := nil;\n      writeln(first^.value)\n    end.\n\nSays:\n\n    line 7: nil pointer\n\nMend: test for `nil` first, in an `if` of its own (both sides of `and` are\ncomputed). `new(p)` makes an object and lets p point to it; before that p is\nnil.\n\nRight:\n\n    program list(output);\n    type link = ^node;\n         node = record value: integer; next: link end;\n    var first: link;\n    begin\n      first := nil;\n      if first = nil then writeln('empty') else writeln(first^.value)\n    end.\n\nWrites:\n\n    empty\n\nRule: a pointer with the value nil points to no variable (ISO 7185, 6.5.4).\n",
    }
}

pub(crate) fn error_7_no_case_constant() -> Page
    ensures { names_of result ≡ page_names (codes "Error 7: no case constant") (codes "no case constant") (codes "7") (codes "error 7") (codes "Error 7: no case constant") }
{
    Page {
        title: "Error 7: no case constant",
        words: "no case constant",
        number: "7",
        named: "error 7",
        told: "Error 7: no case constant",
        text: "The value of a `case` is none of its constants.\n\nWrong:\n\n    program cases(input, output);\n    var n: integer;\n    begin\n      read(n);\n      case n of\n        1: writeln('one');\n        2: writeln('two')\n      end\n    end.\n\nInput:\n\n    3\n\nSays:\n\n    line 5: no case constant\n\nMend: test first whether there is a constant for it. A `case` has no `else`\nhere.\n\nRight:\n\n    program cases(input, output);\n    var n: integer;\n    begin\n      read(n);\n      if n in [1, 2] then\n        case n of\n          1: writeln('one');\n          2: writeln('two')\n        end\n      else\n        writeln('another')\n    end.\n\nInput:\n\n    3\n\nWrites:\n\n    another\n\nRule: one of the constants is equal to the value of the case index (ISO 7185,\n6.8.3.5).\n",
    }
}

pub(crate) fn error_8_set_member_out_of_range() -> Page
    ensures { names_of result ≡ page_names (codes "Error 8: set member out of range") (codes "set member out of range") (codes "8") (codes "error 8") (codes "Error 8: set member out of range") }
{
    Page {
        title: "Error 8: set member out of range",
        words: "set member out of range",
        number: "8",
        named: "error 8",
        told: "Error 8: set member out of range",
        text: "A set would get a member that it can't have: one outside of 0..255, or outside\nof the type of the set's members.\n\nWrong:\n\n    program sets(output);\n    var s: set of 1..10; n: integer;\n    begin\n      n := 11;\n      s := [n];\n      if n in s then writeln('yes')\n    end.\n\nSays:\n\n    line 5: set member out of range\n\nMend: test the member first, or give the set a wider base. A set holds only\nmembers with ordinals from 0 to 255.\n\nRight:\n\n    program sets(output);\n    var s: set of 1..10; n: integer;\n    begin\n      n := 11;\n      s := [];\n      if n <= 10 then s := [n];\n      if n in s then writeln('yes') else writeln('no')\n    end.\n\nWrites:\n\n    no\n\nRule: members lie within the base type (ISO 7185, 6.4.6 and 6.7.1).\n",
    }
}

pub(crate) fn error_9_end_of_input() -> Page
    ensures { names_of result ≡ page_names (codes "Error 9: end of input") (codes "end of input") (codes "9") (codes "error 9") (codes "Error 9: end of input") }
{
    Page {
        title: "Error 9: end of input",
        words: "end of input",
        number: "9",
        named: "error 9",
        told: "Error 9: end of input",
        text: "The program reads, and there is nothing left to be read.\n\nWrong:\n\n    program total(input, output);\n    var n, sum: integer;\n    begin\n      sum := 0;\n      repeat\n        readln(n);\n        sum := sum + n\n      until n = 0;\n      writeln(sum)\n    end.\n\nInput:\n\n    1\n    2\n    3\n\nSays:\n\n    line 6: end of input\n\nMend: ask `eof` before you read: it says whether nothing is left. If the input\ncomes from a file, see that it has all that the program asks for; here a last\nline with 0 is missing.\n\nRight:\n\n    program total(input, output);\n    var n, sum: integer;\n    begin\n      sum := 0;\n      while not eof do begin\n        readln(n);\n        sum := sum + n\n      end;\n      writeln(sum:1)\n    end.\n\nInput:\n\n    1\n    2\n    3\n\nWrites:\n\n    6\n\nRule: nothing is read at the end of the file (ISO 7185, 6.6.5.2 and 6.9.1), and\nthere `eoln` has no value (6.6.6.5).\n",
    }
}

pub(crate) fn error_10_not_an_integer() -> Page
    ensures { names_of result ≡ page_names (codes "Error 10: not an integer") (codes "not an integer") (codes "10") (codes "error 10") (codes "Error 10: not an integer") }
{
    Page {
        title: "Error 10: not an integer",
        words: "not an integer",
        number: "10",
        named: "error 10",
        told: "Error 10: not an integer",
        text: "A number is to be read, but the input has something else.\n\nWrong:\n\n    program age(input, output);\n    var n: integer;\n    begin\n      readln(n);\n      writeln(n:1)\n    end.\n\nInput:\n\n    twelve\n\nSays:\n\n    line 4: not an integer\n\nMend: give the program digits, with a sign if need be: no words, no thousands\nseparators. Where the user may type anything, read characters and see what they\nare.\n\nRight:\n\n    program age(input, output);\n    var n: integer; c: char;\n    begin\n      n := 0;\n      while not eoln do begin\n        read(c);\n        if c in ['0'..'9'] then n := 10 * n + ord(c) - ord('0')\n      end;\n      writeln(n:1)\n    end.\n\nInput:\n\n    1x2\n\nWrites:\n\n    12\n\nRule: what is read for an integer is a signed number (ISO 7185, 6.9.1).\n",
    }
}

pub(crate) fn error_11_field_width_below_one() -> Page
    ensures { names_of result ≡ page_names (codes "Error 11: field width below one") (codes "field width below one") (codes "11") (codes "error 11") (codes "Error 11: field width below one") }
{
    Page {
        title: "Error 11: field width below one",
        words: "field width below one",
        number: "11",
        named: "error 11",
        told: "Error 11: field width below one",
        text: "The width after `:` in a `write` is 0 or less.\n\nWrong:\n\n    program widths(output);\n    var w: integer;\n    begin\n      for w := 2 downto 0 do writeln('x':w)\n    end.\n\nSays:\n\n    line 4: field width below one\n\nWrites:\n\n     x\n    x\n\nMend: a width is at least 1. A number takes as much room as it needs, however\nsmall its width is, so `n:1` writes it without spaces before it. To write no\nspace at all, write nothing.\n\nRight:\n\n    program widths(output);\n    var w: integer;\n    begin\n      for w := 2 downto 1 do writeln('x':w)\n    end.\n\nWrites:\n\n     x\n    x\n\nRule: a field width is at least one (ISO 7185, 6.9.3.1).\n",
    }
}

pub(crate) fn stop_12_out_of_stack() -> Page
    ensures { names_of result ≡ page_names (codes "Stop 12: out of stack") (codes "out of stack") (codes "12") (codes "stop 12") (codes "Stop 12: out of stack") }
{
    Page {
        title: "Stop 12: out of stack",
        words: "out of stack",
        number: "12",
        named: "stop 12",
        told: "Stop 12: out of stack",
        text: "So many procedures and functions are being done at once, one called by another,\nthat their variables take more room than the run was given (4194304 bytes, if\nnothing else is said). Mostly a function calls itself without end.\n\nWrong:\n\n    program endless(output);\n    function sum(n: integer): integer;\n    begin\n      sum := n + sum(n - 1)\n    end;\n    begin\n      writeln(sum(10))\n    end.\n\nSays:\n\n    line 3: out of stack\n\nMend: a function that calls itself needs a case in which it doesn't. If the\ncalls are as many as they must be, give the run a larger stack: `pascal go\n--stack 15000000 p.pas`; a loop needs none.\n\nRight:\n\n    program ends(output);\n    function sum(n: integer): integer;\n    begin\n      if n = 0 then sum := 0 else sum := n + sum(n - 1)\n    end;\n    begin\n      writeln(sum(10):1)\n    end.\n\nWrites:\n\n    55\n\nRule: none of the language, which sets no bound on calls (ISO 7185, 1.2). The\nprogram isn't wrong because of this stop, and its status is 3.\n",
    }
}

pub(crate) fn stop_13_out_of_heap() -> Page
    ensures { names_of result ≡ page_names (codes "Stop 13: out of heap") (codes "out of heap") (codes "13") (codes "stop 13") (codes "Stop 13: out of heap") }
{
    Page {
        title: "Stop 13: out of heap",
        words: "out of heap",
        number: "13",
        named: "stop 13",
        told: "Stop 13: out of heap",
        text: "`new` made so many objects that they take more room than the run was given\n(1048576 bytes, if nothing else is said).\n\nWrong:\n\n    program endless(output);\n    type link = ^node;\n         node = record next: link; value: integer end;\n    var p: link;\n    begin\n      repeat new(p) until p = nil;\n      writeln('done')\n    end.\n\nSays:\n\n    line 6: out of heap\n\nMend: see that the loop ends: `new` never gives nil. If the objects are as many\nas they must be, give the run a larger heap: `pascal go --heap 10000000 p.pas`.\nNothing gives an object back; a list of those that are no longer needed lets\nthem be used again.\n\nRight:\n\n    program ends(output);\n    type link = ^node;\n         node = record next: link; value: integer end;\n    var p, list: link; i: integer;\n    begin\n      list := nil;\n      for i := 1 to 3 do begin\n        new(p); p^.value := i; p^.next := list; list := p\n      end;\n      writeln(list^.value:1)\n    end.\n\nWrites:\n\n    3\n\nRule: none of the language, which sets no bound on objects (ISO 7185, 1.2). The\nprogram isn't wrong because of this stop, and its status is 3.\n",
    }
}

pub(crate) fn status_0_all_is_well() -> Page
    ensures { names_of result ≡ page_names (codes "Status 0: all is well") (codes "all is well") (codes "0") (codes "status 0") (codes "Status 0: all is well") }
{
    Page {
        title: "Status 0: all is well",
        words: "all is well",
        number: "0",
        named: "status 0",
        told: "Status 0: all is well",
        text: "The program came to its end, the text was compiled or listed, or help was asked\nfor. Standard error is empty.\n\nFile hello.pas:\n\n    program hello(output);\n    begin\n      writeln('hello')\n    end.\n\nSession:\n\n    $ pascal go hello.pas; echo $?\n    hello\n    0\n\nA status is a number that each program leaves behind; `echo $?` shows that of\nthe last one.\n\nRule: none of the language. All statuses are listed in docs/REFUSALS.md.\n",
    }
}

pub(crate) fn status_1_refused_or_not_to_be_read_or_written() -> Page
    ensures { names_of result ≡ page_names (codes "Status 1: refused, or not to be read or written") (codes "refused, or not to be read or written") (codes "1") (codes "status 1") (codes "Status 1: refused, or not to be read or written") }
{
    Page {
        title: "Status 1: refused, or not to be read or written",
        words: "refused, or not to be read or written",
        number: "1",
        named: "status 1",
        told: "Status 1: refused, or not to be read or written",
        text: "The text was refused, a file couldn't be read or written, a device failed, or\nthe words of the command are wrong. One line on standard error says which.\n\nFile hello.pas:\n\n    program hello(output)\n    begin\n      writeln('hello')\n    end.\n\nSession:\n\n    $ pascal go hello.pas; echo $?\n    refused at line 2: 20 NotAProgram\n    1\n    $ pascal go missing.pas; echo $?\n    cannot read missing.pas\n    1\n\nMend: what follows `refused` has a page of its own: `pascal explain 20`.\n\nRule: none of the language. All statuses are listed in docs/REFUSALS.md.\n",
    }
}

pub(crate) fn status_2_an_error_of_the_program() -> Page
    ensures { names_of result ≡ page_names (codes "Status 2: an error of the program") (codes "an error of the program") (codes "2") (codes "status 2") (codes "Status 2: an error of the program") }
{
    Page {
        title: "Status 2: an error of the program",
        words: "an error of the program",
        number: "2",
        named: "status 2",
        told: "Status 2: an error of the program",
        text: "While the program ran it met an error: one line on standard error says where\nand which. Lines `called at line ..` show which calls were open then, the\ninnermost first.\n\nFile halve.pas:\n\n    program halve(output);\n    function half(n: integer): integer;\n    begin\n      half := 100 div n\n    end;\n    begin\n      writeln(half(0))\n    end.\n\nSession:\n\n    $ pascal go halve.pas; echo $?\n    line 4: division by zero\n    called at line 7\n    2\n\nMend: each error has a page of its own: `pascal explain division by zero`. What\nthe program wrote before it is kept.\n\nRule: an error is a violation that a processor may leave undetected (ISO 7185,\n3.1). This one reports each, except that it never finds a value undefined:\nvariables and results have first values.\n",
    }
}

pub(crate) fn status_3_out_of_stack_or_heap() -> Page
    ensures { names_of result ≡ page_names (codes "Status 3: out of stack or heap") (codes "out of stack or heap") (codes "3") (codes "status 3") (codes "Status 3: out of stack or heap") }
{
    Page {
        title: "Status 3: out of stack or heap",
        words: "out of stack or heap",
        number: "3",
        named: "status 3",
        told: "Status 3: out of stack or heap",
        text: "The run was stopped since it needed more room than it was given.\n\nFile deep.pas:\n\n    program deep(output);\n    procedure down;\n    begin\n      down\n    end;\n    begin\n      down\n    end.\n\nSession:\n\n    $ pascal go deep.pas; echo $?\n    line 3: out of stack\n    3\n\nMend: give it more, by `--stack` or `--heap`, or see whether it ends at all:\n`pascal explain out of stack`.\n\nRule: none of the language. All statuses are listed in docs/REFUSALS.md.\n",
    }
}

pub(crate) fn status_4_step_limit() -> Page
    ensures { names_of result ≡ page_names (codes "Status 4: step limit") (codes "step limit") (codes "4") (codes "status 4") (codes "Status 4: step limit") }
{
    Page {
        title: "Status 4: step limit",
        words: "step limit",
        number: "4",
        named: "status 4",
        told: "Status 4: step limit",
        text: "The run made as many steps as it was given, which are 1000000000 if nothing else\nis said, and had not come to its end.\n\nWrong:\n\n    program inf(output);\n    var i: integer;\n    begin\n      i := 1;\n      while i <= 10 do\n        if i < 0 then\n          i := i + 1\n    end.\n\nSays:\n\n    step limit\n\nMend: something within the loop must change what its condition looks at. A\nloop's statement is one statement: put several between `begin` and `end`, and\na `;` right after `do` leaves nothing to be done in it. If the program only\ntakes long, give it more steps: `pascal go --steps 100000000000 p.pas`.\n\nRight:\n\n    program ends(output);\n    var i: integer;\n    begin\n      i := 1;\n      while i <= 10 do begin\n        if i > 8 then writeln(i:1);\n        i := i + 1\n      end\n    end.\n\nWrites:\n\n    9\n    10\n\nRule: none of the language: a program may go on for ever.\n",
    }
}

pub(crate) fn status_5_machine_fault() -> Page
    ensures { names_of result ≡ page_names (codes "Status 5: machine fault") (codes "machine fault") (codes "5") (codes "status 5") (codes "Status 5: machine fault") }
{
    Page {
        title: "Status 5: machine fault",
        words: "machine fault",
        number: "5",
        named: "status 5",
        told: "Status 5: machine fault",
        text: "The machine met something that no code of this compiler does, so the image was\ndamaged, or made by something else.\n\nSession:\n\n    $ pascal run bad.img; echo $?\n    machine fault: BadWord\n    5\n\nBytes bad.img:\n\n    50524931 00000000 01000000 00000000 00000000 00000000 000000E4\n\nMend: make the image anew by `pascal compile`. That an image as this compiler\nmade it meets no fault is proved.\n\nFile hello.pas:\n\n    program hello(output);\n    begin\n      writeln('hello')\n    end.\n\nSession:\n\n    $ pascal compile hello.pas hello.img\n    $ pascal run hello.img\n    hello\n\nRule: none of the language. The machine is described in docs/MACHINE.md.\n",
    }
}

pub(crate) fn fault_cannot_read() -> Page
    ensures { names_of result ≡ page_names (codes "Fault: cannot read") (codes "cannot read") (codes "Fault: cannot read") (codes "Fault: cannot read") (codes "Fault: cannot read") }
{
    Page {
        title: "Fault: cannot read",
        words: "cannot read",
        number: "Fault: cannot read",
        named: "Fault: cannot read",
        told: "Fault: cannot read",
        text: "A file couldn't be read: there is none of that name, it is a folder, or you may\nnot read it. `cannot read the command line` means that a word of the command is\nno UTF-8 text.\n\nSession:\n\n    $ pascal go helo.pas\n    cannot read helo.pas\n\nFile hello.pas:\n\n    program hello(output);\n    begin\n      writeln('hello')\n    end.\n\nMend: see how the file is called and where it lies: `ls` shows what is here, and\n`cd` goes elsewhere. Put a name with spaces between quotes: `pascal go \"my\nprogram.pas\"`.\n\nSession:\n\n    $ pascal go hello.pas\n    hello\n\nRule: none of the language.\n",
    }
}

pub(crate) fn fault_cannot_write() -> Page
    ensures { names_of result ≡ page_names (codes "Fault: cannot write") (codes "cannot write") (codes "Fault: cannot write") (codes "Fault: cannot write") (codes "Fault: cannot write") }
{
    Page {
        title: "Fault: cannot write",
        words: "cannot write",
        number: "Fault: cannot write",
        named: "Fault: cannot write",
        told: "Fault: cannot write",
        text: "An image or a listing couldn't be written: there is no such folder, you may not\nwrite there, the disk is full, or the image would be written over its own\nsource. `cannot write standard error` is said of a report of `why`, `trace`,\n`cover` or `profile` that could not be written whole.\n\nSession:\n\n    $ pascal compile hello.pas hello.pas\n    cannot write hello.pas\n\nFile hello.pas:\n\n    program hello(output);\n    begin\n      writeln('hello')\n    end.\n\nMend: give the image a name of its own, in a folder that there is. What stood\nthere before was not changed.\n\nSession:\n\n    $ pascal compile hello.pas hello.img\n    $ pascal run hello.img\n    hello\n\nRule: none of the language.\n",
    }
}

pub(crate) fn fault_input_fault() -> Page
    ensures { names_of result ≡ page_names (codes "Fault: input fault") (codes "input fault") (codes "Fault: input fault") (codes "Fault: input fault") (codes "Fault: input fault") }
{
    Page {
        title: "Fault: input fault",
        words: "input fault",
        number: "Fault: input fault",
        named: "Fault: input fault",
        told: "Fault: input fault",
        text: "The program wanted to read, and its input failed: it is closed, or it is a\nfolder or a device that can't be read.\n\nSession:\n\n    $ pascal go ask.pas < .\n    input fault\n\nFile ask.pas:\n\n    program ask(input, output);\n    var n: integer;\n    begin\n      read(n);\n      writeln(n:1)\n    end.\n\nMend: see where the input comes from. Without `<` it is the keyboard.\n\nSession:\n\n    $ echo 7 | pascal go ask.pas\n    7\n\nRule: none of the language.\n",
    }
}

pub(crate) fn fault_output_fault() -> Page
    ensures { names_of result ≡ page_names (codes "Fault: output fault") (codes "output fault") (codes "Fault: output fault") (codes "Fault: output fault") (codes "Fault: output fault") }
{
    Page {
        title: "Fault: output fault",
        words: "output fault",
        number: "Fault: output fault",
        named: "Fault: output fault",
        told: "Fault: output fault",
        text: "The program wrote, and its output failed: it is closed, the disk is full, or the\nprogram that reads it has ended.\n\nSession:\n\n    $ pascal go hello.pas > /dev/full\n    output fault\n\nFile hello.pas:\n\n    program hello(output);\n    begin\n      writeln('hello')\n    end.\n\nMend: see where the output goes to, and whether there is room.\n\nSession:\n\n    $ pascal go hello.pas > hello.txt\n    $ cat hello.txt\n    hello\n\nRule: none of the language.\n",
    }
}

pub(crate) fn machine_fault_badword() -> Page
    ensures { names_of result ≡ page_names (codes "Machine fault: BadWord") (codes "BadWord") (codes "Machine fault: BadWord") (codes "Machine fault: BadWord") (codes "Machine fault: BadWord") }
{
    Page {
        title: "Machine fault: BadWord",
        words: "BadWord",
        number: "Machine fault: BadWord",
        named: "Machine fault: BadWord",
        told: "Machine fault: BadWord",
        text: "A word that was to be done as an instruction is none.\n\nSession:\n\n    $ pascal run bad.img\n    machine fault: BadWord\n\nBytes bad.img:\n\n    50524931 00000000 01000000 00000000 00000000 00000000 000000E4\n\nMend: make the image anew by `pascal compile`; see Status 5.\n\nFile hello.pas:\n\n    program hello(output);\n    begin\n      writeln('hello')\n    end.\n\nSession:\n\n    $ pascal compile hello.pas hello.img\n    $ pascal run hello.img\n    hello\n\nRule: the words of the processor, described in docs/MACHINE.md.\n",
    }
}

pub(crate) fn machine_fault_badaddress() -> Page
    ensures { names_of result ≡ page_names (codes "Machine fault: BadAddress") (codes "BadAddress") (codes "Machine fault: BadAddress") (codes "Machine fault: BadAddress") (codes "Machine fault: BadAddress") }
{
    Page {
        title: "Machine fault: BadAddress",
        words: "BadAddress",
        number: "Machine fault: BadAddress",
        named: "Machine fault: BadAddress",
        told: "Machine fault: BadAddress",
        text: "An instruction loads or stores where no memory is, or a word at an address that\nis no multiple of 4.\n\nSession:\n\n    $ pascal run odd.img\n    machine fault: BadAddress\n\nBytes odd.img:\n\n    50524931 00000000 01000000 00000000 00000000 00000000 01000080\n\nMend: make the image anew by `pascal compile`; see Status 5.\n\nFile hello.pas:\n\n    program hello(output);\n    begin\n      writeln('hello')\n    end.\n\nSession:\n\n    $ pascal compile hello.pas hello.img\n    $ pascal run hello.img\n    hello\n\nRule: the memory of the processor, described in docs/MACHINE.md.\n",
    }
}

pub(crate) fn machine_fault_baddivisor() -> Page
    ensures { names_of result ≡ page_names (codes "Machine fault: BadDivisor") (codes "BadDivisor") (codes "Machine fault: BadDivisor") (codes "Machine fault: BadDivisor") (codes "Machine fault: BadDivisor") }
{
    Page {
        title: "Machine fault: BadDivisor",
        words: "BadDivisor",
        number: "Machine fault: BadDivisor",
        named: "Machine fault: BadDivisor",
        told: "Machine fault: BadDivisor",
        text: "The processor was to divide by a number that is not above 0.\n\nSession:\n\n    $ pascal run divisor.img\n    machine fault: BadDivisor\n\nBytes divisor.img:\n\n    50524931 00000000 02000000 00000000 00000000 00000000 F9FF0051 00001B40\n\nMend: make the image anew by `pascal compile`; see Status 5. A `div` by zero in\na Pascal program is another thing: `pascal explain division by zero`.\n\nFile hello.pas:\n\n    program hello(output);\n    begin\n      writeln('hello')\n    end.\n\nSession:\n\n    $ pascal compile hello.pas hello.img\n    $ pascal run hello.img\n    hello\n\nRule: the instruction DIV of the processor, described in docs/MACHINE.md.\n",
    }
}

pub(crate) fn machine_fault_badjump() -> Page
    ensures { names_of result ≡ page_names (codes "Machine fault: BadJump") (codes "BadJump") (codes "Machine fault: BadJump") (codes "Machine fault: BadJump") (codes "Machine fault: BadJump") }
{
    Page {
        title: "Machine fault: BadJump",
        words: "BadJump",
        number: "Machine fault: BadJump",
        named: "Machine fault: BadJump",
        told: "Machine fault: BadJump",
        text: "The processor was to go on where no memory is.\n\nSession:\n\n    $ pascal run --stack 0 --heap 0 jump.img\n    machine fault: BadJump\n\nBytes jump.img:\n\n    50524931 00000000 01000000 00000000 00000000 00000000 00000040\n\nMend: make the image anew by `pascal compile`; see Status 5.\n\nFile hello.pas:\n\n    program hello(output);\n    begin\n      writeln('hello')\n    end.\n\nSession:\n\n    $ pascal compile hello.pas hello.img\n    $ pascal run hello.img\n    hello\n\nRule: the steps of the processor, described in docs/MACHINE.md.\n",
    }
}

pub(crate) fn machine_fault_unknowntrap() -> Page
    ensures { names_of result ≡ page_names (codes "Machine fault: UnknownTrap") (codes "UnknownTrap") (codes "Machine fault: UnknownTrap") (codes "Machine fault: UnknownTrap") (codes "Machine fault: UnknownTrap") }
{
    Page {
        title: "Machine fault: UnknownTrap",
        words: "UnknownTrap",
        number: "Machine fault: UnknownTrap",
        named: "Machine fault: UnknownTrap",
        told: "Machine fault: UnknownTrap",
        text: "The code stopped with an error, and the image has no line for it.\n\nSession:\n\n    $ pascal run trap.img\n    machine fault: UnknownTrap\n\nBytes trap.img:\n\n    50524931 00000000 03000000 00000000 00000000 00000000 C0FF0056 01000040 040060A0\n\nMend: make the image anew by `pascal compile`; see Status 5.\n\nFile hello.pas:\n\n    program hello(output);\n    begin\n      writeln('hello')\n    end.\n\nSession:\n\n    $ pascal compile hello.pas hello.img\n    $ pascal run hello.img\n    hello\n\nRule: the trap table of images, described in docs/MACHINE.md.\n",
    }
}
