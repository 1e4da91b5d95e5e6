// Strings of the text, as constants of the code.

ghost use Rattle.std.specs.Prelude.{◌≡◌, ◌++◌, ◌≤◌, ◌∷◌, ◌+◌, ◌*◌, ◌/◌, [], codes, OnOk};
ghost use Rattle.ps_lower_code.specs.Scopes.{Scope};
ghost use Rattle.ps_lower_code.specs.Statements.{truth_text};
ghost use Rattle.ps_lower_code.specs.Values.{text_length, structure_bytes};
ghost use Rattle.ps_lower_layout.specs.Words.{filled};
ghost use Rattle.ps_tree.specs.Tree as tree;
ghost use Rattle.ps_tree.specs.Tree.{Place};
ghost use Rattle.ps_tree.specs.View.{type_of, structure_of};
ghost use Rattle.tac_code.specs.declared.code.Instruction.TheVariants as i;

use crate::depth::MAX_NUMBER;
use crate::out::Code;
use crate::shapes::byte_count;
use ps_tree::characters::Characters;
use ps_tree::tree::Structure;
use ps_tree::types::Ty;
use std::alloc::AllocError;
use tac_code::code::{Constant, Operand, Relation};

/// The address of a string, whose characters the constant shares.
pub fn text(out: &mut Code, characters: &Characters, d: u32) -> Result<(), AllocError>
    ensures { OnOk result (out.new ≡ out.old ++ i.Text d (filled characters.now) ∷ []) }
{
    let bytes = characters.filled()?;
    out.text(d, Constant::shared(bytes))
}

/// The address of characters that are not a string of the text.
fn word_text(out: &mut Code, characters: &[u8], d: u32) -> Result<(), AllocError>
    ensures { OnOk result (out.new ≡ out.old ++ i.Text d (filled characters.now) ∷ []) }
{
    let alloc = out.alloc();
    let characters = Characters::new(alloc, Vec::from_slice(alloc, characters)?)?;
    text(out, &characters, d)
}

/// The number of characters of the strings of a type.
fn contents_length(ty: &Ty) -> u32
    ensures { (p : Place) → result ≡ text_length (tree.Contents p (type_of ty.now)) }
{
    ty.string_length().unwrap_or(0)
}

/// The number of a string's characters.
#[tactic(auto, using(ps_tree::proofs::TreeLemmas::structure_of_Contents), unfolding(ps_tree::specs::View::structure_of))]
pub fn text_length(e: &Structure) -> u32
    requires { text_length (structure_of e.now) ≤ MAX_NUMBER }
    ensures { result ≡ text_length (structure_of e.now) }
{
    match e {
        Structure::Literal(characters) => characters.len() as u32,
        Structure::Contents { ty, .. } => contents_length(ty),
    }
}

/// The bytes of `length` characters, padded to whole words.
fn filled_length(length: usize) -> u32
    requires { 4 * ((length + 3) / 4) ≤ MAX_NUMBER }
    ensures { result ≡ 4 * ((length + 3) / 4) }
{
    let words = (length + 3) / 4;
    4 * words as u32
}

/// The bytes of a structure's words.
#[tactic(auto, using(ps_tree::proofs::TreeLemmas::structure_of_Contents, crate::proofs::Strings::filled_length), unfolding(ps_tree::specs::View::structure_of))]
pub fn structure_bytes(e: &Structure) -> u32
    requires { structure_bytes (structure_of e.now) ≤ MAX_NUMBER }
    ensures { result ≡ structure_bytes (structure_of e.now) }
{
    match e {
        Structure::Literal(characters) => filled_length(characters.len()),
        Structure::Contents { ty, .. } => byte_count(ty),
    }
}

/// The address and the length of the string that is written for a truth value.
pub fn truth_text(out: &mut Code, truth: u32, to: u32, count: u32) -> Result<(), AllocError>
    ensures { (k : Scope) → OnOk result (out.new ≡ out.old ++ truth_text k truth to count) }
{
    out.branch(Relation::Equal, truth, Operand::Number(0), 3)?;
    word_text(out, b"true", to)?;
    out.literal(count, 4)?;
    out.jump(2)?;
    word_text(out, b"false", to)?;
    out.literal(count, 5)
}
