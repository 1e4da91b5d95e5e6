// How reads look at the input and take from it.

ghost use Rattle.std.specs.Prelude.{◌++◌, replicate, ◌≡◌, IfOk, OnOk};
ghost use Rattle.ps_meaning.specs.Expressions as e;
ghost use Rattle.ps_meaning.specs.Statements as m;
ghost use Rattle.ps_meaning.specs.Text as t;
ghost use Rattle.behavior.specs.Transcripts.{mark};
ghost use Rattle.ps_meaning.specs.Text.{scan_integer, marks_to, after_integer, after_line, line_marks};
ghost use Rattle.ps_meaning.specs.Worlds.{with_input, look, Gives};
ghost use Rattle.ps_meaning_runner.specs.Procedures.{integer_fitting};
ghost use Rattle.ps_meaning_runner.specs.View.{IsReading, value_of, spot_of};
ghost use Rattle.ps_meaning_runner.specs.Worlds as r;
ghost use Rattle.ps_meaning_runner.specs.Worlds.{Answers, context_of, world_of, done_of};

use crate::operators::truth;
use crate::stop::Halt;
use crate::text::{Reading, as_character, scan_integer};
use crate::value::{Spot, Value};
use crate::world::{Context, Input, World};
use ps_tree::tree::Range;
use std::alloc::AllocError;

impl<'a> World<'a> {
    /// Looks at the next character of the input.
    fn look(&mut self) -> Result<Option<u8>, AllocError>
        ensures { IfOk result (λ b. look (world_of self.old) ≡ Gives b (world_of self.new)) }
    {
        let next = self.input.next_character();
        if !self.input.looked {
            self.transcript.push(256)?;
        }
        self.input = self.input.looked_at();
        Ok(next)
    }

    /// eof.
    #[tactic(auto, unfolding(crate::specs::View::value_of))]
    pub fn eof(&mut self) -> Result<Value, Halt>
        ensures { Answers value_of (r.at_end (world_of self.old)) result self.new }
    {
        let next = self.look()?;
        Ok(Value::Ordinal(truth(next.is_none())))
    }

    /// eoln; error 9 at the end of input.
    pub fn eoln(&mut self, line: u16, context: &Context) -> Result<Value, Halt>
        ensures { Answers value_of (r.at_line_end line (context_of context.now) (world_of self.old)) result self.new }
    {
        let next = self.look()?;
        self.line_end(next, line, context)
    }

    /// Whether the next character ends a line; error 9 at the end of input.
    #[tactic(auto, using(crate::proofs::Answers::stops), unfolding(crate::specs::View::value_of))]
    fn line_end(&self, next: Option<u8>, line: u16, context: &Context) -> Result<Value, Halt>
        ensures { Answers value_of (e.line_end next line (context_of context.now) (world_of self.now)) result self.now }
    {
        match next {
            Some(byte) => Ok(Value::Ordinal(truth(byte == 10))),
            None => Err(self.fault(9, line, context)),
        }
    }

    /// The next character for a read; error 9 at the end of input.
    #[tactic(auto, using(crate::proofs::Answers::stops), unfolding(crate::specs::View::value_of))]
    fn character_read(
        &mut self,
        next: Option<u8>,
        line: u16,
        context: &Context,
    ) -> Result<Value, Halt>
        ensures { Answers value_of (m.character_read next line (context_of context.now) (world_of self.old)) result
            self.new }
    {
        match next {
            Some(byte) => {
                self.input = self.input.taken();
                Ok(Value::Ordinal(i32::from(as_character(byte))))
            }
            None => Err(self.fault(9, line, context)),
        }
    }
}

/// Marks `count` first looks.
fn add_marks(transcript: &mut Vec<u16>, count: usize) -> Result<(), AllocError>
    ensures { OnOk result (transcript.new.items ≡ transcript.old.items ++ replicate count mark) }
{
    for _mark in 0..count {
        transcript.push(256)?;
    }
    Ok(())
}

impl<'a> World<'a> {
    /// Looks at the rest of the line and takes it; error 9 at the end of input.
    #[tactic(auto, using(crate::proofs::Answers::stops))]
    fn line_read(&mut self, next: Option<u8>, line: u16, context: &Context) -> Result<(), Halt>
        ensures { Answers done_of (m.line_read next line (context_of context.now) (world_of self.old)) result self.new }
    {
        if next.is_none() {
            return Err(self.fault(9, line, context));
        }
        self.skip_line()?;
        Ok(())
    }

    /// Looks at the rest of the line and takes it.
    fn skip_line(&mut self) -> Result<(), AllocError>
        ensures { OnOk result (world_of self.new ≡ with_input (world_of self.old) (after_line (world_of self.old).input)
            (line_marks (world_of self.old).input)) }
    {
        let looks = self.input.looks_to_line();
        add_marks(&mut self.transcript, looks)?;
        self.input = self.input.after_line();
        Ok(())
    }

    /// Looks for an integer in the input, and takes what it finds.
    fn scan(&mut self) -> Result<Reading, AllocError>
        ensures found { IfOk result (λ r. IsReading (scan_integer (world_of self.old).input.left).found r) }
        ensures world { OnOk result (world_of self.new ≡ with_input (world_of self.old)
            (after_integer (scan_integer (world_of self.old).input.left).rest)
            (marks_to (world_of self.old).input (scan_integer (world_of self.old).input.left).rest)) }
    {
        let (found, rest) = scan_integer(self.input.left);
        let looks = self.input.looks_to(rest.len());
        add_marks(&mut self.transcript, looks)?;
        self.input = Input {
            left: rest,
            looked: true,
            in_line: true,
        };
        Ok(found)
    }

    /// Reads an integer for a variable of this range: error 9 at the end of input, 10 if there is no integer, 4 for one
    /// outside the range.
    fn integer_read(
        &mut self,
        low: i32,
        high: i32,
        line: u16,
        context: &Context,
    ) -> Result<Value, Halt>
        ensures { Answers value_of (r.integer_in low high line (context_of context.now) (world_of self.old)) result
            self.new }
    {
        let found = self.scan()?;
        self.integer_fitting(found, low, high, line, context)
    }

    /// The integer that was found, for a variable of this range.
    #[tactic(auto, using(crate::proofs::Answers::stops, crate::proofs::Procedures::no_integer_fits), unfolding(crate::specs::View::value_of))]
    fn integer_fitting(
        &self,
        found: Reading,
        low: i32,
        high: i32,
        line: u16,
        context: &Context,
    ) -> Result<Value, Halt>
        ensures { (r : t.Reading) → IsReading r found → Answers value_of
            (integer_fitting r low high line (context_of context.now) (world_of self.now)) result self.now }
    {
        let number = match found {
            Reading::EndFound => 9,
            Reading::NoInteger => 10,
            Reading::Integer(None) => 4,
            Reading::Integer(Some(x)) => {
                let range = Range::Within { low, high };
                return self.fitting(range, Value::Ordinal(x), line, context);
            }
        };
        Err(self.fault(number, line, context))
    }
    /// Reads a character into a variable of this range: error 9 at the end of input, 4 for one outside the range.
    #[tactic(auto, using(crate::proofs::Answers::stopped_then))]
    pub fn read_character(
        &mut self,
        spot: &Spot,
        low: i32,
        high: i32,
        line: u16,
        context: &Context,
    ) -> Result<(), Halt>
        ensures { Answers done_of (r.character_into (spot_of spot.now) low high line (context_of context.now)
            (world_of self.old)) result self.new }
    {
        let next = self.look()?;
        let x = self.character_read(next, line, context)?;
        self.put_fitting(spot, Range::Within { low, high }, x, line, context)
    }

    /// Reads an integer into a variable of this range, as `integer_read` reads it.
    #[tactic(auto, using(crate::proofs::Answers::stopped_then))]
    pub fn read_integer(
        &mut self,
        spot: &Spot,
        low: i32,
        high: i32,
        line: u16,
        context: &Context,
    ) -> Result<(), Halt>
        ensures { Answers done_of (r.integer_into (spot_of spot.now) low high line (context_of context.now)
            (world_of self.old)) result self.new }
    {
        let v = self.integer_read(low, high, line, context)?;
        self.put(spot, v)
    }

    /// Looks at the rest of the line and takes it; error 9 at the end of input.
    #[tactic(auto, using(crate::proofs::Answers::stopped_then))]
    pub fn line_taken(&mut self, line: u16, context: &Context) -> Result<(), Halt>
        ensures { Answers done_of (r.rest_of_line line (context_of context.now) (world_of self.old)) result self.new }
    {
        let next = self.look()?;
        self.line_read(next, line, context)
    }
}
