//! The rows of docs/OTHER_PASCALS.md, a line each: its tokens, what the innermost open construction begins with,
//! whether the token behind them counts too (`..`), where it comes from, its number, what it is exchanged for behind
//! `=`, and what to do; a tab stands between two. Written by tools/others, and laid out by rt fmt. Signs that begin no
//! token are rules.

use crate::rows::Part;
use crate::rule::Step::{ExchangeSign, Help, Rule, Says, Stands, Tell};
use crate::rule::{More, Steps};

const PROGRAMS_1: &str =
    "unit\t\t\tTurbo\t20\t\tThere are no units: a program is one text.\nlibrary\t\t\tTurbo\t20\t\tThere are no libraries: a program is one text.\nmodule\t\t\tExtended\t20\t\tThere are no modules: a program is one text.\nbegin\t\t\tTurbo\t20\t\tA program begins with a heading: `program name(output);`.\nuses\t\t\tTurbo\t20\t\tThere are no units: leave the line out; required procedures need none.\nimport\t\t\tExtended\t20\t\tThere are no modules: leave the line out.\ninterface\t\t\tTurbo\t20\t=\tThere are no units: a program is one text.\nimplementation\t\t\tTurbo\t20\t=\tThere are no units: a program is one text.\n#\t\t\tC\t10\t\tNothing is included from other files: leave the line out.\nint\t\t\tC\t20\t\tA program is `program name(output);`, declarations, `begin`, statements and `end.`";

const DECLARATIONS_1: &str =
    "string\t\t\tTurbo\t30\t\tA string has a fixed length: an array, and a count beside it.\nstring [\t\t\tTurbo\t20\t\tA string has a fixed length: an array, and a count beside it.\nansistring\t\t\tTurbo\t30\t\tA string has a fixed length: an array, and a count beside it.\nshortstring\t\t\tTurbo\t30\t\tA string has a fixed length: an array, and a count beside it.\nwidestring\t\t\tTurbo\t30\t\tA string has a fixed length: an array, and a count beside it.\nunicodestring\t\t\tTurbo\t30\t\tA string has a fixed length: an array, and a count beside it.\npchar\t\t\tTurbo\t30\t\tA string has a fixed length: an array, and a count beside it.\nstr\t\t\tPython\t30\t\tA string has a fixed length: an array, and a count beside it.\nwidechar\t\t\tTurbo\t30\t=char\tA `char` is one byte.\nansichar\t\t\tTurbo\t30\t=char\tA `char` is one byte.\nbyte\t\t\tTurbo\t30\t=0..255\tUse a range of integers.\nshortint\t\t\tTurbo\t30\t=-128..127\tUse a range of integers.\nsmallint\t\t\tTurbo\t30\t=-32768..32767\tUse a range of integers.\nword\t\t\tTurbo\t30\t=0..65535\tUse a range of integers.\nlongint\t\t\tTurbo\t30\t=integer\tAn `integer` has 32 bits.\nlongword\t\t\tTurbo\t30\t=0..maxint\tUse a range of integers, up to `maxint`.\ncardinal\t\t\tTurbo\t30\t=0..maxint\tUse a range of integers, up to `maxint`.\ndword\t\t\tTurbo\t30\t=0..maxint\tUse a range of integers, up to `maxint`.\nint64\t\t\tTurbo\t30\t=integer\tThere are 32 bits: `maxint` is 2147483647.\nqword\t\t\tTurbo\t30\t=integer\tThere are 32 bits: `maxint` is 2147483647.\nnativeint\t\t\tTurbo\t30\t=integer\tAn `integer` has 32 bits.\nint\t\t\tC\t30\t=integer\tThe type is called `integer`.\nbool\t\t\tC\t30\t=Boolean\tThe type is called `Boolean`.\nsingle\t\t\tTurbo\t30\t\tThere are no real numbers: count in a smaller unit, as hundredths.\ndouble\t\t\tTurbo\t30\t\tThere are no real numbers: count in a smaller unit, as hundredths.\nextended\t\t\tTurbo\t30\t\tThere are no real numbers: count in a smaller unit, as hundredths.\ncurrency\t\t\tTurbo\t30\t\tThere are no real numbers: count in cents.\nfloat\t\t\tC\t30\t\tThere are no real numbers: count in a smaller unit, as hundredths.\ncomplex\t\t\tExtended\t30\t\tUse a record with two fields.\npointer\t\t\tTurbo\t30\t\tA pointer points to a type that it names.\ntextfile\t\t\tTurbo\t30\t\tThe files are `input` and `output`.\ntstringlist\t\t\tTurbo\t30\t\tUse an array, and count in a variable how many are used.\nvariant\t\t\tTurbo\t30\t\tEach variable has one type.\narray of\t\t\tTurbo\t20\t\tAn array has fixed bounds: take the largest that is needed.\npacked string\t\t\tTurbo\t20\t\tA string has a fixed length: an array, and a count beside it.\nNAME =\t\t\tTurbo\t20\t\tA variable gets its value by a statement: `n := 5`.\nvalue\t\t\tExtended\t20\t\tA variable gets its value by a statement: `n := 5`.\nNAME :\t\t\tTurbo\t20\t\tA constant has the type of its value: leave the type out.\nresourcestring\t\t..\tTurbo\t20\t=const\tUse `const`.\nthreadvar\t\t..\tTurbo\t20\t=var\tUse `var`.";

const DECLARATIONS_2: &str =
    "class\t\t\tTurbo\t30\t\tThere are no classes: a record, and procedures that take it as a `var` parameter.\nclass\t\t..\tTurbo\t20\t\tThere are no classes: a record, and procedures that take it as a `var` parameter.\nclass (\t\t\tTurbo\t20\t\tThere are no classes: a record, and procedures that take it as a `var` parameter.\nobject\t\t..\tTurbo\t20\t\tThere are no objects: a record, and procedures that take it as a `var` parameter.\nstruct\t\t..\tC\t20\t=record\tThe type is called `record`.\nenum\t\t..\tC\t20\t=\tLeave the word out.\n= procedure\t\t\tTurbo\t20\t\tA procedure is passed as a parameter; no variable holds one.\n= function\t\t\tTurbo\t20\t\tA function is passed as a parameter; no variable holds one.\nexternal\t\t\tTurbo\t20\t\tA procedure has a block in this text.\ninline\t\t\tTurbo\t20\t\tLeave the word out.\noverload\t\t\tTurbo\t20\t\tEach routine has a name of its own.\ndef\t\t..\tPython\t20\t\tIt is a `procedure`, or a `function` where it gives a value.\nvoid\t\t..\tC\t20\t\tIt is a `procedure`.\nint\t\t\tC\t20\t\tA variable is declared as `var n: integer;`, and a function begins with `function`.\nlet\t\t..\tPython\t20\t\tDeclare it: `const n = 5;` or `var n: integer;`.\nsub\t\t..\tBASIC\t20\t\tIt is a `procedure`.\ndim\t\t..\tBASIC\t20\t\tDeclare it: `var n: integer;`.";

const PARAMETERS_1: &str =
    "const\t\t\tTurbo\t20\t=\tA value parameter, or `var` for a large array.\nout\t\t..\tTurbo\t20\t=var\tA parameter that gives a value back is `var`.\nprotected\t\t..\tExtended\t20\t=\tA value parameter, or `var` for a large array.\n: array\t\t\tTurbo\t20\t\tThe type of a parameter is a name: declare it in the `type` part.\n: packed\t\t\tstandard\t20\t\tThe type of a parameter is a name: declare it in the `type` part.\n: ^\t\t\tTurbo\t20\t\tThe type of a parameter is a name: declare it in the `type` part.\n: (\t\t\tTurbo\t20\t\tThe type of a parameter is a name: declare it in the `type` part.\nNAME =\t\t\tTurbo\t20\t\tEach call gives each parameter.\nstring\t\t\tTurbo\t30\t\tA string has a fixed length: the name of an array type.";

const RESULTS_1: &str =
    "string\t\t\tTurbo\t30\t\tA function gives no string: a procedure fills a `var` parameter of an array type.\nstring [\t\t\tTurbo\t20\t\tA function gives no string: a procedure fills a `var` parameter of an array type.\nansistring\t\t\tTurbo\t30\t\tA function gives no string: a procedure fills a `var` parameter of an array type.\nstr\t\t\tPython\t30\t\tA function gives no string: a procedure fills a `var` parameter of an array type.";

const STATEMENTS_1: &str =
    "inc\t\t\tTurbo\t30\t\tAssign what is one more: `n := n + 1`; of other types `c := succ(c)`.\ndec\t\t\tTurbo\t30\t\tAssign what is one less: `n := n - 1`; of other types `c := pred(c)`.\n+ =\t\t\tC\t20\t\tWrite it out: `n := n + 1`.\n- =\t\t\tC\t20\t\tWrite it out: `n := n - 1`.\n* =\t\t\tC\t20\t\tWrite it out: `n := n * 2`.\n/ =\t\t\tC\t22\t\tWrite it out: `n := n div 2`.\n+ +\t\t\tC\t20\t\tWrite it out: `n := n + 1`.\n- -\t\t\tC\t20\t\tWrite it out: `n := n - 1`.\n= =\t\t\tC\t20\t==\tEquality is `=`.\n! =\t\t\tC\t10\t=<>\tNot equal is `<>`, and `not` reverses a condition.\n!\t\t\tC\t10\t=not\tTo reverse a condition, use `not`.\n?\t\t\tC\t10\t\tA choice is an `if`: `if i > j then n := 3 else n := 4`.\n= >\t\t\tBASIC\t20\t=>=\tAt least is `>=`.\n= <\t\t\tBASIC\t20\t=<=\tAt most is `<=`.\n> <\t\t\tExtended\t20\t=<>\tNot equal is `<>`.\n~ =\t\t\tLua\t10\t=<>\tNot equal is `<>`.\n= :\t\t\tC\t20\t=:=\tAn assignment is `:=`.\n< -\t\t\tR\t20\t=:=\tAn assignment is `:=`.\nlet\t\t..\tBASIC\t20\t\tAn assignment needs no word before it: `n := 4`.\n& &\t\t\tC\t10\t=and\tWrite `and`; both sides are always computed.\n| |\t\t\tC\t10\t=or\tWrite `or`; both sides are always computed.\n&\t\t\tC\t10\t=and\tWrite `and`; both sides are always computed.\n|\t\t\tC\t10\t=or\tWrite `or`; both sides are always computed.\n%\t\t\tC\t10\t=mod\tThe remainder is `mod`.\n\\\t\t\tBASIC\t10\t=div\tThe quotient is `div`.\n\"\t\t\tC\t10\t\tA string is written between apostrophes.\n_\t\t\tTurbo\t10\t\tNames are letters and digits: `firstOne`.\n#\t\t\tTurbo\t10\t\tThe character of a number is `chr(65)`.\n$\t\t\tTurbo\t10\t\tNumbers are decimal.\n/ /\t\t\tTurbo\t22\t\tA comment is written between `{` and `}`, or `(*` and `*)`.\n/ *\t\t\tC\t22\t\tA comment is written between `(*` and `*)`, or `{` and `}`.\n* *\t\t\tExtended\t20\t\tMultiply, in a loop if needed; the square is `sqr(i)`.\npow\t\t\tPython\t30\t\tMultiply, in a loop if needed; the square is `sqr(i)`.\npow\t\t\tExtended\t20\t\tMultiply, in a loop if needed; the square is `sqr(i)`.\nxor\t\t\tTurbo\t20\t=<>\tOf two Booleans it is `<>`; of integers there is none.\nshl\t\t\tTurbo\t20\t\tMultiply by a power of two.\nshr\t\t\tTurbo\t20\t\tDivide by a power of two.\nand then\t\t\tExtended\t20\t\tBoth sides of `and` are computed: write one `if` within another.\nor else\t\t\tExtended\t20\t\tBoth sides of `or` are computed: write `else if`.\nexit\t\t\tTurbo\t30\t\tPut the rest in an `if`; a loop ends by its condition.";

const STATEMENTS_2: &str =
    "break\t\t\tTurbo\t30\t\tA loop ends by its condition: set a Boolean.\ncontinue\t\t\tTurbo\t30\t\tPut the rest of the loop in an `if`.\nhalt\t\t\tTurbo\t30\t\tA program ends at its last `end`: put the rest in an `if`.\nquit\t\t\tPython\t30\t\tA program ends at its last `end`: put the rest in an `if`.\nswitch\t\t\tC\t30\t\tA choice by a value is `case n of 1: .. end`.\nswitch\t\t..\tC\t20\t=case\tA choice by a value is `case n of 1: .. end`.\ndefault\t\t\tC\t30\t\tA `case` has no `default`: test before, as `if n in [1, 2] then`.\nelse\tcase\t\tTurbo\t20\t\tA `case` has no `else`: test before, as `if n in [1, 2] then`.\notherwise\t\t\tExtended\t30\t\tA `case` has no `otherwise`: test before, as `if n in [1, 2] then`.\notherwise\tcase\t..\tExtended\t20\t\tA `case` has no `otherwise`: test before, as `if n in [1, 2] then`.\n..\tcase\t\tTurbo\t20\t\tList the constants of a `case`; or `if n in [1..3] then`.\nwhen\tcase\t..\tAda\t20\t=\tThe constants of a `case` have no word before them.\nelseif\t\t\tBASIC\t20\t=else if\tThese are two words: `else if`.\nelsif\t\t\tAda\t20\t=else if\tThese are two words: `else if`.\nelif\t\t\tPython\t20\t=else if\tThese are two words: `else if`.\nend if\t\t\tBASIC\t20\t=end\tAn `if` has no end of its own: put `begin` and `end` around its statements.\nendif\t\t\tBASIC\t30\t\tAn `if` has no end of its own: put `begin` and `end` around its statements.\nendif\t\t\tBASIC\t20\t=\tAn `if` has no end of its own: put `begin` and `end` around its statements.\nwend\t\t\tBASIC\t30\t\tA loop has no end of its own: put `begin` and `end` around its statements.\nwend\t\t\tBASIC\t20\t=\tA loop has no end of its own: put `begin` and `end` around its statements.\nendwhile\t\t\tBASIC\t20\t=\tA loop has no end of its own: put `begin` and `end` around its statements.\nnext\t\t..\tBASIC\t20\t\tA loop has no end of its own: put `begin` and `end` around its statements.\nstep\t\t\tBASIC\t20\t\tA `for` goes by one: compute the value, or use `while`.\nby\t\t\tModula\t20\t\tA `for` goes by one: compute the value, or use `while`.\nin\tfor\t\tTurbo\t20\t\tA `for` goes from a first to a last value: `:=` and `to`.\nfor var\t\t\tTurbo\t20\t=for\tDeclare the variable in the `var` part.\nfor (\t\t\tC\t20\t\tWrite `for i := 0 to 2 do`.\nvar\t\t\tTurbo\t20\t\tVariables are declared before `begin`, in the `var` part.\ntry\t\t..\tTurbo\t20\t\tAn error ends the program: test before.\nraise\t\t..\tTurbo\t20\t\tAn error ends the program: test before.\nreturn\t\t..\tC\t20\t\tA program ends at its last `end`; a function's result is assigned to its name.\nreturn\t\t\tC\t30\t\tPut the rest in an `if`; a function's result is assigned to its name.\nasm\t\t..\tTurbo\t20\t\tThere is no other language within.\ncall\t\t..\tBASIC\t20\t\tA procedure is called by its name alone.\n; do\t\t\tC\t20\t\tUse `repeat` and `until`, whose condition ends the loop.\nloop\t\t..\tAda\t20\t\tUse `repeat` and `until`.\nnull\t\t\tC\t30\t=nil\tIt is called `nil`.\nnone\t\t\tPython\t30\t=nil\tIt is called `nil`.\nmaxlongint\t\t\tTurbo\t30\t=maxint\tIt is called `maxint`.\n- >\t\t\tC\t20\t=^.\tA field of what a pointer points to is `l^.value`.";

const STATEMENTS_3: &str =
    "@\t\t\tTurbo\t20\t\tThere are no addresses of variables: `new` makes what a pointer points to.\nassigned\t\t\tTurbo\t30\t\tCompare with `nil`.\ngetmem\t\t\tTurbo\t30\t\tUse `new`.\nfreemem\t\t\tTurbo\t30\t\tNothing is given back: keep a list of what is free.\nmark\t\t\tTurbo\t30\t\tNothing is given back: keep a list of what is free.\nrelease\t\t\tTurbo\t30\t\tNothing is given back: keep a list of what is free.\nlength\t\t\tTurbo\t30\t\tThe length of an array is known: use a constant, and a count beside it.\nhigh\t\t\tTurbo\t30\t\tUse a constant for the bound, here and where the array is declared.\nlow\t\t\tTurbo\t30\t\tUse a constant for the bound, here and where the array is declared.\nsizeof\t\t\tTurbo\t30\t\tUse a constant for the bound, here and where the array is declared.\nsetlength\t\t\tTurbo\t30\t\tAn array has fixed bounds: count in a variable how many are used.\ncopy\t\t\tTurbo\t30\t\tGo over the characters in a loop.\nconcat\t\t\tTurbo\t30\t\tStrings aren't joined: write one after another.\npos\t\t\tTurbo\t30\t\tGo over the characters in a loop.\ndelete\t\t\tTurbo\t30\t\tMove the characters in a loop.\ninsert\t\t\tTurbo\t30\t\tMove the characters in a loop.\nstr\t\t\tTurbo\t30\t\tWrite the number where it is needed: `write(n:1)`.\nval\t\t\tTurbo\t30\t\tRead the number: `read(n)`.\ninttostr\t\t\tTurbo\t30\t\tWrite the number where it is needed: `write(n:1)`.\nstrtoint\t\t\tTurbo\t30\t\tRead the number: `read(n)`.\nformat\t\t\tTurbo\t30\t\tGive each value its width: `write(n:5)`.\nupcase\t\t\tTurbo\t30\t\tCompute it by `chr` and `ord`.\nlowercase\t\t\tTurbo\t30\t\tCompute it by `chr` and `ord`.\nuppercase\t\t\tTurbo\t30\t\tCompute it by `chr` and `ord`.\ntrim\t\t\tExtended\t30\t\tCount the characters that are used.\nsubstr\t\t\tExtended\t30\t\tGo over the characters in a loop.\nfillchar\t\t\tTurbo\t30\t\tAssign each in a loop.\ninclude\t\t\tTurbo\t30\t\tJoin sets by `+`.\nexclude\t\t\tTurbo\t30\t\tTake sets away by `-`.\ncard\t\t\tExtended\t30\t\tCount in a loop.\nrandom\t\t\tTurbo\t30\t\tCompute it: each from the one before, from a first one that is read.\nrandomize\t\t\tTurbo\t30\t\tRead a first number.\nmax\t\t\tTurbo\t30\t\tWrite it out: `if i > j then n := i else n := j`.\nmin\t\t\tTurbo\t30\t\tWrite it out: `if i < j then n := i else n := j`.\npower\t\t\tTurbo\t30\t\tMultiply, in a loop if needed.\npi\t\t\tTurbo\t30\t\tThere are no real numbers: count in hundredths.\nclrscr\t\t\tTurbo\t30\t\tOutput goes on line by line: write empty lines.\ngotoxy\t\t\tTurbo\t30\t\tOutput goes on line by line: write spaces.\ntextcolor\t\t\tTurbo\t30\t\tOutput has no colours.\ntextbackground\t\t\tTurbo\t30\t\tOutput has no colours.";

const STATEMENTS_4: &str =
    "delay\t\t\tTurbo\t30\t\tThere is no clock: leave it out.\nsound\t\t\tTurbo\t30\t\tThere is no sound: leave it out.\nreadkey\t\t\tTurbo\t30\t\tRead a character; a terminal hands it on at the end of its line.\nkeypressed\t\t\tTurbo\t30\t\tA program waits for what it reads; `eof` is true at its end.\nassign\t\t\tTurbo\t30\t\tThe files are `input` and `output`: `pascal go p.pas < a.txt`.\nassignfile\t\t\tTurbo\t30\t\tThe files are `input` and `output`: `pascal go p.pas < a.txt`.\nclose\t\t\tTurbo\t30\t\t`input` and `output` need not be closed.\nclosefile\t\t\tTurbo\t30\t\t`input` and `output` need not be closed.\nappend\t\t\tTurbo\t30\t\t`input` and `output` need not be opened.\nioresult\t\t\tTurbo\t30\t\tAn error ends the program: ask `eof` before.\nseekeof\t\t\tTurbo\t30\t=eof\tAsk `eof`.\nparamstr\t\t\tTurbo\t30\t\tA program has no words: read from `input`.\nparamcount\t\t\tTurbo\t30\t\tA program has no words: read from `input`.\nprint\t\t\tPython\t30\t=writeln\tUse `writeln`.\nprint\t\t..\tBASIC\t20\t\tUse `writeln`, with parentheses: `writeln(n)`.\nprintln\t\t\tother\t30\t=writeln\tUse `writeln`.\nprintf\t\t\tC\t30\t=writeln\tUse `writeln`.\nscanf\t\t\tC\t30\t=read\tUse `read`.\ncout\t\t..\tC\t20\t\tUse `writeln`.\nwritestr\t\t\tExtended\t30\t\tWrite the number where it is needed: `write(n:1)`.\nshowmessage\t\t\tTurbo\t30\t=writeln\tUse `writeln`.";

const IN_A_FUNCTION_1: &str =
    "result\t\t\tTurbo\t30\t=f\tA function's result is assigned to its name.\nexit (\t\t\tTurbo\t30\t\tA function's result is assigned to its name; put the rest in an `if`.\nreturn\t\t..\tC\t20\t\tA function's result is assigned to its name.\nreturn (\t\t\tC\t30\t\tA function's result is assigned to its name.";

const STATEMENTS_THAT_ARE_LEFT_OUT_1: &str =
    "/\t\t\tstandard\t22\t=div\tQuotient and remainder are `div` and `mod`; there are no real numbers.\n1 . 5\t\t\tstandard\t16\t\tThere are no real numbers: count in a smaller unit, as tenths.\n: 2\t\t\tstandard\t22\t\tA second width is for real numbers: write the parts of the number.\nsqrt\t\t\tstandard\t22\t\tFind the whole root in a loop.\nsin\t\t\tstandard\t22\t\tThere are no real numbers: use a table of hundredths.\ncos\t\t\tstandard\t22\t\tThere are no real numbers: use a table of hundredths.\narctan\t\t\tstandard\t22\t\tThere are no real numbers: use a table of hundredths.\nexp\t\t\tstandard\t22\t\tThere are no real numbers: multiply in a loop.\nln\t\t\tstandard\t22\t\tThere are no real numbers: divide in a loop, and count.\ntrunc\t\t\tstandard\t22\t\tThere are no real numbers: `div` leaves the remainder out.\nround\t\t\tstandard\t22\t\tThere are no real numbers: add a half before you divide.\ngoto\t\t\tstandard\t22\t\tUse `while`, `repeat`, a Boolean variable, or a procedure.\n1 :\t\t\tstandard\t22\t\tThere are no labels: use `while`, `repeat`, a Boolean variable, or a procedure.\ndispose\t\t\tstandard\t22\t\tNothing is given back: leave it out, or keep a list of what is free.\npage\t\t\tstandard\t22\t\tOutput goes on line by line: write empty lines.\nget\t\t\tstandard\t22\t\tUse `read`.\nput\t\t\tstandard\t22\t\tUse `write`.\nreset\t\t\tstandard\t22\t\t`input` is open when the program begins: leave it out.\nrewrite\t\t\tstandard\t22\t\t`output` is open when the program begins: leave it out.\ninput ^\t\t\tstandard\t22\t\tUse `read`, and keep the character in a variable.";

const DECLARATIONS_THAT_ARE_LEFT_OUT_1: &str =
    "real\t\t\tstandard\t22\t\tThere are no real numbers: count in a smaller unit, as hundredths.\ntext\t\t\tstandard\t22\t\tThe files are `input` and `output`: `pascal go p.pas < a.txt > b.txt`.\nfile\t\t\tstandard\t22\t\tThe files are `input` and `output`: `pascal go p.pas < a.txt > b.txt`.\nlabel\t\t\tstandard\t22\t\tThere are no labels: use `while`, `repeat`, a Boolean variable, or a procedure.\ncase\t\t\tstandard\t22\t\tA record has no variant part: give it all fields.";

const COMMENTS_1: &str =
    "{ $\t\t\tTurbo\t\t\tIt is a comment here: ranges, overflow and `nil` are always tested.\n( * $\t\t\tTurbo\t\t\tIt is a comment here: ranges, overflow and `nil` are always tested.";

/// The numbers of a part's texts: of the first, and the one behind the last.
pub(crate) fn numbers_of(part: Part) -> (usize, usize) {
    match part {
        Part::Program => (0, 1),
        Part::Declarations => (1, 3),
        Part::Parameters => (3, 4),
        Part::Result => (4, 5),
        Part::Statements => (5, 9),
        Part::Function => (9, 10),
        Part::StatementsLeftOut => (10, 11),
        Part::DeclarationsLeftOut => (11, 12),
        Part::Comments => (12, 13),
    }
}

/// The text with a number; an empty one behind the last.
pub(crate) fn text_at(number: usize) -> &'static str {
    match number {
        0 => PROGRAMS_1,
        1 => DECLARATIONS_1,
        2 => DECLARATIONS_2,
        3 => PARAMETERS_1,
        4 => RESULTS_1,
        5 => STATEMENTS_1,
        6 => STATEMENTS_2,
        7 => STATEMENTS_3,
        8 => STATEMENTS_4,
        9 => IN_A_FUNCTION_1,
        10 => STATEMENTS_THAT_ARE_LEFT_OUT_1,
        11 => DECLARATIONS_THAT_ARE_LEFT_OUT_1,
        12 => COMMENTS_1,
        _ => "",
    }
}

/// The rules of the signs that begin no token, of the part Programs.
pub(crate) const SIGNS_OF_PROGRAMS: Steps = &[
    Rule,
    Stands("#"),
    Says("`#` is not used in standard Pascal: it comes from C"),
    Help("Nothing is included from other files: leave the line out."),
    Tell(More::Character),
];

/// The rules of the signs that begin no token, of the part Statements.
pub(crate) const SIGNS_OF_STATEMENTS: Steps = &[
    Rule,
    Stands("!="),
    Says("`!=` is not used in standard Pascal: it comes from C"),
    Help("Not equal is `<>`, and `not` reverses a condition."),
    ExchangeSign("!=", "<>"),
    Rule,
    Stands("!"),
    Says("`!` is not used in standard Pascal: it comes from C"),
    Help("To reverse a condition, use `not`."),
    ExchangeSign("!", "not"),
    Rule,
    Stands("?"),
    Says("`?` is not used in standard Pascal: it comes from C"),
    Help("A choice is an `if`: `if i > j then n := 3 else n := 4`."),
    Rule,
    Stands("~="),
    Says("`~=` is not used in standard Pascal: it comes from Lua"),
    Help("Not equal is `<>`."),
    ExchangeSign("~=", "<>"),
    Rule,
    Stands("&&"),
    Says("`&&` is not used in standard Pascal: it comes from C"),
    Help("Write `and`; both sides are always computed."),
    ExchangeSign("&&", "and"),
    Rule,
    Stands("||"),
    Says("`||` is not used in standard Pascal: it comes from C"),
    Help("Write `or`; both sides are always computed."),
    ExchangeSign("||", "or"),
    Rule,
    Stands("&"),
    Says("`&` is not used in standard Pascal: it comes from C"),
    Help("Write `and`; both sides are always computed."),
    ExchangeSign("&", "and"),
    Rule,
    Stands("|"),
    Says("`|` is not used in standard Pascal: it comes from C"),
    Help("Write `or`; both sides are always computed."),
    ExchangeSign("|", "or"),
    Rule,
    Stands("%"),
    Says("`%` is not used in standard Pascal: it comes from C"),
    Help("The remainder is `mod`."),
    ExchangeSign("%", "mod"),
    Rule,
    Stands("\\"),
    Says("`\\` is not used in standard Pascal: it comes from BASIC"),
    Help("The quotient is `div`."),
    ExchangeSign("\\", "div"),
    Rule,
    Stands("\""),
    Says("`\"` is not used in standard Pascal: it comes from C"),
    Help("A string is written between apostrophes."),
    Rule,
    Stands("_"),
    Says("`_` is not used in standard Pascal: it comes from Turbo Pascal"),
    Help("Names are letters and digits: `firstOne`."),
    Rule,
    Stands("#"),
    Says("`#` is not used in standard Pascal: it comes from Turbo Pascal"),
    Help("The character of a number is `chr(65)`."),
    Tell(More::Character),
    Rule,
    Stands("$"),
    Says("`$` is not used in standard Pascal: it comes from Turbo Pascal"),
    Help("Numbers are decimal."),
    Tell(More::Decimal),
];
