//! The names that hide others at a place, in one set: a single lookup shows that none of them hides a name, however
//! many records enclose the place.

ghost use Rattle.std.specs.Prelude.{◌≡◌, ◌++◌, ◌∷◌, [], ℕ, List, map, length, take, not, if◌then◌else◌, IfOk, OnOk};
ghost use Rattle.ps_tree.specs.Names.{has};
ghost use Rattle.ps_check_declarations.specs.Points.{add_name};
ghost use Rattle.ps_check_declarations.specs.Hiding.{hiding_within};

use indexmap::IndexSet;
use ps_tree::names::{Names, Seed};
use std::alloc::{AllocError, Global};
use std::marker::Model;

/// The names of everything that encloses a place, each once. A contract sees them as a list.
pub struct HidingNames {
    set: IndexSet<Vec<u8>, Seed>,
}

impl Drop for HidingNames {
    fn drop(self) {
        let HidingNames { set: _ } = self;
    }
}

impl Model for HidingNames {
    ghost Value = { List (List ℕ) };

    ghost view = { λ n. map (λ name. name.items) n.set.keys };
}

impl HidingNames {
    /// No names, in a text with this seed.
    pub fn new(alloc: Global, seed: Seed) -> HidingNames
        ensures { result ≡ [] }
    {
        HidingNames {
            set: IndexSet::with_hasher(alloc, seed),
        }
    }

    /// Adds a name at the end unless it is present, and returns whether it was added.
    fn add(&mut self, name: Vec<u8>) -> Result<bool, AllocError>
        ensures added { IfOk result (λ added. added ≡ not (has self.old name.items)) }
        ensures names { IfOk result (λ added. self.new ≡ (if added then self.old ++ name.items ∷ [] else self.old)) }
    {
        let (_, added) = self.set.insert_full(name)?;
        Ok(added)
    }

    /// Adds the names of one more region that encloses a place, in time that grows only with their number.
    pub fn enter(&mut self, alloc: Global, names: &Names) -> Result<(), AllocError>
        ensures { OnOk result (self.new ≡ hiding_within self.old names.now) }
    {
        add_all(self, alloc, names.as_slice())
    }

    /// Removes all names but the first `count`, in time that grows only with the number of those removed.
    pub fn leave(&mut self, count: usize)
        ensures { self.new ≡ take count self.old }
    {
        self.set.truncate(count);
    }

    /// Whether a name is among them.
    pub fn contains(&self, name: &[u8]) -> bool
        ensures { result ≡ has self.now name.now }
    {
        self.set.contains(name)
    }

    /// The number of names.
    pub fn len(&self) -> usize
        ensures { result ≡ length self.now }
    {
        self.set.len()
    }
}

/// Adds a name, unless it is present.
fn add_copy(hiding: &mut HidingNames, alloc: Global, name: &[u8]) -> Result<(), AllocError>
    ensures { OnOk result (hiding.new ≡ add_name hiding.old name.now) }
{
    let name = Vec::from_slice(alloc, name)?;
    let _is_added = hiding.add(name)?;
    Ok(())
}

/// Adds several.
#[tactic(auto, using(crate::proofs::HidingLemmas::entering_start))]
fn add_all(hiding: &mut HidingNames, alloc: Global, names: &[Vec<u8>]) -> Result<(), AllocError>
    ensures { OnOk result (hiding.new ≡ hiding_within hiding.old (map (λ name. name.items) names.now)) }
{
    for name in names {
        add_copy(hiding, alloc, name.as_slice())?;
    }
    Ok(())
}
