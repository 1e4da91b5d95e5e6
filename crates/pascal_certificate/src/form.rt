//! The form of certificates, as it is written.

ghost use Rattle.std.specs.Prelude.{◌≡◌, ◌++◌, IfOk, OnOk, map};
ghost use Rattle.pascal_certificate.specs.Form.{certificate_text, head, line_of, lines_of, tail};

use crate::fact::{FACTS, Fact, label};
use std::alloc::{AllocError, Global};

// The first line, with the number of the form.
pub const FIRST_LINE: &str = "fonkjuld certificate 1\n";

// The lines of every certificate after those of its facts.
pub const LAST_LINES: &str =
    "proved: the image does what the Pascal program of the source means, under every budget of stack and heap and on every input of bytes
proved: it writes what the program writes, in step with what the program has looked at of its input, and goes on where that does
proved: it ends as the program ends; an error has its number, its line and the lines of the open calls
proved: it stops for want of stack or heap just where the frames of the open calls or the objects take more than there is
proved: it comes to no fault of the processor
theorem: Compiles in crates/ps_build/specs/Headline.antt, ensured by ps_build::build
theorem: NeverFaults in crates/ps_build/specs/Laws.antt, ensured by ps_build::laws::never_faults
believed: the definitions in docs/TRUSTED.md, which say what the language and the processor are
believed: the prover, the compiler and the library of the kit, and what lies below them
believed: that the program was built of its sources, which ./gate over them shows
not-promised: how long a run takes, and that the computer which emulates the processor has the memory
not-promised: what files, pipes and terminals do with what is written
not-promised: that the program does what its author wanted
not-promised: who wrote this certificate: it is not signed, and each can check what it tells
budget: bytes of stack and heap, each a multiple of 4, with the code and the variables at most 16777152
budget: 4194304 of stack, 1048576 of heap and 1000000000 steps, where pascal run is told nothing else
status: 0 normal, 2 an error of the program, 3 out of stack or heap, 4 the limit of steps, 5 a fault of the processor
status: 1 refused, or a file, an input or an output failed
check: sha256sum and wc -c of the source, the image and the program give the sums and bytes above
check: pascal verify CERTIFICATE SOURCE IMAGE builds the source again and compares
end
";

/// The first line.
pub(crate) fn head() -> &'static [u8]
    ensures { result.now ≡ head }
{
    FIRST_LINE.as_bytes()
}

/// The lines of every certificate.
#[tactic(auto, unfolding(crate::specs::Form::tail))]
pub(crate) fn tail() -> &'static [u8]
    ensures { result.now ≡ tail }
{
    LAST_LINES.as_bytes()
}

// Writes the line of a fact.
fn put_line(out: &mut Vec<u8>, fact: Fact, value: &[u8]) -> Result<(), AllocError>
    ensures { OnOk result (out.new.items ≡ out.old.items ++ line_of fact value.now) }
{
    out.extend_from_slice(label(fact).as_bytes())?;
    out.extend_from_slice(b": ")?;
    out.extend_from_slice(value)?;
    out.extend_from_slice(b"\n")
}

// Writes a line for each of some facts, with its value.
fn put_lines(out: &mut Vec<u8>, facts: &[Fact], values: &[&[u8]]) -> Result<(), AllocError>
    ensures { OnOk result (out.new.items ≡ out.old.items ++ lines_of facts.now (map (λ value. value.now) values.now)) }
{
    let [fact, facts_behind @ ..] = facts else {
        return Ok(());
    };
    let [value, values_behind @ ..] = values else {
        return Ok(());
    };
    put_line(out, *fact, value)?;
    put_lines(out, facts_behind, values_behind)
}

/// The certificate of these values, one for each fact.
pub(crate) fn render(alloc: Global, values: &[&[u8]]) -> Result<Vec<u8>, AllocError>
    ensures { IfOk result (λ text. text.items ≡ certificate_text (map (λ value. value.now) values.now)) }
{
    let mut out = Vec::new(alloc);
    out.extend_from_slice(head())?;
    put_lines(&mut out, &FACTS, values)?;
    out.extend_from_slice(tail())?;
    Ok(out)
}
