//! The names of a region, and of the fields of a record.

ghost use Rattle.std.specs.Prelude.{◌≡◌, ◌++◌, [], ◌∷◌, ℕ, List, map, IfOk, length, OnErr, not, if◌then◌else◌};
ghost use Rattle.std.specs.Prelude.{OnOk};
ghost use Rattle.ps_tree.specs.Names.{has, place};
ghost use Rattle.ps_tree.specs.NameCode.{symbol, name_symbols, joined, packed, names_code};

use indexmap::IndexSet;
use std::alloc::{AllocError, Global};
use std::hash::{BuildHasher, DefaultHasher, FoldHasher, Hasher};
use std::marker::Model;

/// What the hashes of a text's names and numbers begin with.
///
/// It is SipHash-1-3 of the whole text, with both keys 0. So names with equal hashes can't be found by trial: another
/// name makes another seed, and of the texts around names that were made for one seed, one in 2^64 has that seed. We
/// know of no shorter way, though SipHash doesn't promise that there is none if its keys are known. Whoever found one
/// could make the check of that text slow, but no answer wrong.
#[derive(Clone, Copy)]
pub struct Seed {
    initial: FoldHasher,
}

impl Seed {
    /// The seed of a text.
    pub fn of(text: &[u8]) -> Seed {
        let mut whole = DefaultHasher::new();
        whole.write(text);
        let mut initial = FoldHasher::default();
        initial.write_u64(whole.finish());
        Seed { initial }
    }
}

impl BuildHasher for Seed {
    type Hasher = FoldHasher;

    ghost build_hasher = { λ seed. seed.initial };

    fn build_hasher(&self) -> FoldHasher {
        self.initial
    }
}

/// The spellings of a region's defining points, in lower case, in their order. Finding one takes as long as reading it.
/// A contract sees them as a list.
pub struct Names {
    set: IndexSet<Vec<u8>, Seed>,
}

impl Drop for Names {
    fn drop(self) {
        let Names { set: _ } = self;
    }
}

impl Model for Names {
    ghost Value = { List (List ℕ) };

    ghost view = { λ n. map (λ name. name.items) n.set.keys };
}

// In the code of a list of names: the number of symbols, where 0 stands for no symbol; the least word that is full; the
// symbol after each name; and the number to which a byte that is neither a letter nor a digit is added.
const BASE: u32 = 40;

const FULL: u32 = 1600;

const END: u32 = 37;

const OWN: u32 = 64000;

/// The symbol of a byte of a name.
#[tactic(auto, using(crate::proofs::CodeLemmas::symbol_letter, crate::proofs::CodeLemmas::symbol_digit, crate::proofs::CodeLemmas::symbol_own))]
fn symbol(byte: u8) -> u32
    ensures { result ≡ symbol byte }
{
    if b'a' <= byte && byte <= b'z' {
        u32::from(byte) - 96
    } else if b'0' <= byte && byte <= b'9' {
        u32::from(byte) - 21
    } else {
        OWN + u32::from(byte)
    }
}

/// Adds a symbol to a code whose last word was taken off: into that word if it isn't full, otherwise after it.
fn put_behind(code: &mut Vec<u32>, word: u32, symbol: u32) -> Result<(), AllocError>
    ensures { OnOk result (code.new.items ≡ joined (code.old.items ++ word ∷ []) symbol) }
{
    if word < FULL && symbol < BASE {
        code.push(BASE * word + symbol)?;
        return Ok(());
    }
    code.push(word)?;
    code.push(symbol)?;
    Ok(())
}

/// Adds a symbol to a code.
fn add_symbol(code: &mut Vec<u32>, symbol: u32) -> Result<(), AllocError>
    ensures { OnOk result (code.new.items ≡ joined code.old.items symbol) }
{
    let Some(word) = code.pop() else {
        code.push(symbol)?;
        return Ok(());
    };
    put_behind(code, word, symbol)
}

/// Adds a name to a code.
#[tactic(auto, using(crate::proofs::CodeLemmas::name_start, crate::proofs::CodeLemmas::name_next, crate::proofs::CodeLemmas::name_end))]
fn add_name(code: &mut Vec<u32>, name: &[u8]) -> Result<(), AllocError>
    ensures { OnOk result (code.new.items ≡ packed code.old.items (name_symbols name.now)) }
{
    for byte in name {
        add_symbol(code, symbol(*byte))?;
    }
    add_symbol(code, END)
}

/// The code of these names.
fn code_of(alloc: Global, names: &[Vec<u8>]) -> Result<Vec<u32>, AllocError>
    ensures { IfOk result (λ code. code.items ≡ names_code (map (λ name. name.items) names.now)) }
{
    let mut code = Vec::new(alloc);
    for name in names {
        add_name(&mut code, name.as_slice())?;
    }
    Ok(code)
}

impl Names {
    /// No names, in a text with this seed.
    pub fn new(alloc: Global, seed: Seed) -> Names
        ensures { result ≡ [] }
    {
        Names {
            set: IndexSet::with_hasher(alloc, seed),
        }
    }

    /// Adds a name at the end unless it is present, and returns whether it was added.
    pub fn add(&mut self, name: Vec<u8>) -> Result<bool, AllocError>
        ensures added { IfOk result (λ added. added ≡ not (has self.old name.items)) }
        ensures names { IfOk result (λ added. self.new ≡ (if added then self.old ++ name.items ∷ [] else self.old)) }
        ensures err { OnErr result (self.new ≡ self.old) }
    {
        let (_, added) = self.set.insert_full(name)?;
        Ok(added)
    }

    /// The place of a name, counted from 0.
    pub fn find(&self, name: &[u8]) -> Option<usize>
        ensures { result ≡ place self.now name.now }
    {
        self.set.get_index_of(name)
    }

    /// Whether the name is present.
    pub fn contains(&self, name: &[u8]) -> bool
        ensures { result ≡ has self.now name.now }
    {
        self.find(name).is_some()
    }

    /// The names, in their order.
    pub fn as_slice(&self) -> &[Vec<u8>]
        ensures { map (λ name. name.items) result.now ≡ self.now }
    {
        self.set.as_slice()
    }

    /// Words by which two long lists of names are compared quickly. This takes the time of reading them from memory:
    /// three letters or digits are packed into one word of four bytes, of which the upper two are 0.
    pub(crate) fn code(&self, alloc: Global) -> Result<Vec<u32>, AllocError>
        ensures { IfOk result (λ code. code.items ≡ names_code self.now) }
    {
        code_of(alloc, self.as_slice())
    }

    /// The number of names.
    pub fn len(&self) -> usize
        ensures { result ≡ length self.now }
    {
        self.set.len()
    }
}
