//! Runs that are traced.

ghost use Rattle.std.specs.Prelude.{◌≡◌, ◌⊎◌, IfOk, IfErr, IfSome, IfNone, OnErr, true};
ghost use Rattle.ps_build.specs.Accepts.{IsRefused};
ghost use Rattle.ps_build.specs.declared.refusal.Refusal.TheVariants.{OutOfMemory};
ghost use Rattle.ps_build.specs.Runs.{RunsImage, IsRunRefused};
ghost use Rattle.ps_build.specs.Slices.{IsImageLeft};

use crate::accesses::accesses_of;
use crate::heads::heads_of;
use crate::notes::Notes;
use crate::prepared::Prepared;
use crate::sites::sites_of;
use crate::tracer::{Choice, Teller, Tracer};
use crate::watch::run_image_watched;
use ps_build::{Budget, Outcome, Paced, Refusal};
use ps_scan::{Token, scan};
use ps_scene::{FieldName, Surroundings, field_names};
use ps_text::Source;
use risc_image::ImageView;
use std::alloc::{AllocError, Global};

/// Which statements of which program are traced.
#[derive(Clone, Copy)]
pub struct Tracing<'a> {
    /// The text from which the program was built.
    pub text: &'a [u8],
    pub prepared: &'a Prepared,
    pub choice: Choice<'a>,
}

/// How a traced run ended.
#[derive(Clone, Copy)]
pub struct Traced {
    /// `None` if a fault at a pause ended the run.
    pub outcome: Option<Outcome>,
    /// Whether each line that was made was passed on. After the first one that wasn't, no more were made, and the run
    /// went on.
    pub is_whole: bool,
    /// Whether memory ran out while lines were wanted. Then the last line says that the trace is cut, and the run went
    /// on.
    pub is_cut: bool,
}

// The tracer for a run of a program.
fn tracer_of<'a, T: Teller + Drop>(
    alloc: Global,
    source: &'a Source<'a>,
    tokens: &'a [Token],
    fields: &'a [FieldName],
    tracing: Tracing<'a>,
    image: &ImageView<'_>,
    teller: T,
) -> Result<Tracer<'a, T>, AllocError> {
    let text = &tracing.prepared.text;
    let sites = sites_of(alloc, &text.map, image.words())?;
    let heads = heads_of(alloc, source, tokens, sites.statements.as_slice())?;
    let accesses = accesses_of(alloc, image)?;
    Ok(Tracer {
        alloc,
        around: Surroundings {
            source,
            tokens,
            fields,
            checked: &text.mapped.checked,
            map: &text.map,
        },
        sites,
        accesses,
        heads,
        choice: tracing.choice,
        teller,
        notes: Notes::new(alloc),
    })
}

// The tokens of a text, and the names of the fields of its record types.
fn scanned<'a>(
    alloc: Global,
    text: &'a [u8],
) -> Result<(Source<'a>, Vec<Token>, Vec<FieldName>), Refusal>
    ensures { IfErr result (IsRefused text.now) }
{
    let source = Source::new(text)?;
    let tokens = scan(alloc, &source)?;
    let fields = field_names(alloc, tokens.as_slice())?;
    Ok((source, tokens, fields))
}

// Runs an image, and shows it to the tracer.
fn run_followed<C: Paced, T: Teller + Drop>(
    alloc: Global,
    image: &[u8],
    tracer: Tracer<'_, T>,
    budget: Budget,
    console: &mut C,
    max_steps: u64,
) -> Result<Traced, Refusal>
    ensures runs { IfOk result (λ traced. IfSome traced.outcome
        (RunsImage image.now budget max_steps (C.world console.old) (C.world console.new))) }
    ensures left { IfOk result (λ traced. IfNone traced.outcome
        (IsImageLeft image.now budget max_steps (C.world console.old) (C.world console.new))) }
    ensures failed { IfOk result (λ traced. IfNone traced.outcome (C.has_failed console.new ≡ true)) }
    ensures refused { IfErr result (IsRunRefused image.now budget) }
    ensures unchanged { OnErr result (C.world console.new ≡ C.world console.old) }
{
    let mut tracer = tracer;
    match run_image_watched(alloc, image, budget, console, &mut tracer, max_steps) {
        Ok(ended) => Ok(Traced {
            outcome: ended.outcome,
            is_whole: tracer.notes.is_whole,
            is_cut: tracer.notes.is_cut,
        }),
        Err(refusal) => Err(refusal),
    }
}

/// Runs a program as `run_image_in_slices` runs its image, and reports each statement as it is executed: where it
/// begins, the variables that it changed, and what it read and wrote.
///
/// A statement that contains others is reported each time its own part is executed: a `while`, a `repeat` and a `for`
/// once for each iteration, a `repeat` at its `until`. A statement that calls is reported after the call returns, after
/// the statements of the called routine; what it wrote or read before the call is reported before them. So the lines
/// are in the order of the run. The last line of a run that doesn't end normally is that of the statement in which it
/// ended, unless it ended between two; calls that have not returned then are not reported. If memory runs out while
/// lines are wanted, the last one says so, and the run goes on.
///
/// # Errors
///
/// Those of `run_image_in_slices`.
pub fn run_traced<C: Paced, T: Teller + Drop>(
    alloc: Global,
    tracing: Tracing<'_>,
    teller: T,
    budget: Budget,
    console: &mut C,
    max_steps: u64,
) -> Result<Traced, Refusal>
    ensures runs { IfOk result (λ traced. IfSome traced.outcome
        (RunsImage tracing.entry.prepared.now.text.mapped.built budget max_steps (C.world console.old)
        (C.world console.new))) }
    ensures left { IfOk result (λ traced. IfNone traced.outcome
        (IsImageLeft tracing.entry.prepared.now.text.mapped.built budget max_steps (C.world console.old)
        (C.world console.new))) }
    ensures failed { IfOk result (λ traced. IfNone traced.outcome (C.has_failed console.new ≡ true)) }
    ensures refused { IfErr result (λ refusal. IsRefused tracing.entry.text.now refusal
        ⊎ IsRunRefused tracing.entry.prepared.now.text.mapped.built budget refusal
        ⊎ (refusal ≡ OutOfMemory)) }
    ensures unchanged { OnErr result (C.world console.new ≡ C.world console.old) }
{
    let bytes = tracing.prepared.text.mapped.built.bytes();
    let (source, tokens, fields) = scanned(alloc, tracing.text)?;
    let view = match ImageView::read(bytes) {
        Ok(view) => view,
        Err(refusal) => return Err(Refusal::from(refusal)),
    };
    match tracer_of(alloc, &source, &tokens, &fields, tracing, &view, teller) {
        Ok(tracer) => run_followed(alloc, bytes, tracer, budget, console, max_steps),
        Err(_) => Err(Refusal::OutOfMemory),
    }
}
