//! Which facts of a certificate are not as they were.

ghost use Rattle.std.specs.Prelude.{◌≡◌, ◌++◌, ◌∷◌, [], IfOk, OnOk, map};
ghost use Rattle.pascal_certificate.specs.Facts.{facts};
ghost use Rattle.pascal_certificate.specs.Differences.{differ, difference_of, differences};

use crate::fact::{FACTS, Fact, is_not_known, may_be_untold};
use std::alloc::{AllocError, Global};

/// A fact whose value is not what it was.
#[derive(Clone, Copy)]
pub struct Change<'a, 'b> {
    pub fact: Fact,
    /// The values in the certificate.
    pub old: &'a [u8],
    /// What it is now.
    pub new: &'b [u8],
}

// Whether two values of a fact differ: they are not the same, and both are known if one may be unknown.
fn differ(fact: Fact, old: &[u8], new: &[u8]) -> bool
    ensures { result ≡ differ fact old.now new.now }
{
    old != new && !(may_be_untold(fact) && (is_not_known(old) || is_not_known(new)))
}

// Puts a fact, if its values differ.
fn put_change<'a, 'b>(
    out: &mut Vec<Change<'a, 'b>>,
    fact: Fact,
    old: &'a [u8],
    new: &'b [u8],
) -> Result<(), AllocError>
    ensures { OnOk result (map difference_of out.new.items
        ≡ map difference_of out.old.items ++ differences (fact ∷ []) (old.entry.now ∷ []) (new.entry.now ∷ [])) }
{
    if differ(fact, old, new) {
        out.push(Change { fact, old, new })?;
    }
    Ok(())
}

// Puts each of some facts whose values differ.
fn put_changes<'a, 'b>(
    out: &mut Vec<Change<'a, 'b>>,
    facts: &[Fact],
    olds: &[&'a [u8]],
    news: &[&'b [u8]],
) -> Result<(), AllocError>
    ensures { OnOk result (map difference_of out.new.items
        ≡ map difference_of out.old.items ++ differences facts.now (map (λ value. value.now) olds.now)
        (map (λ value. value.now) news.now)) }
{
    let [fact, facts_behind @ ..] = facts else {
        return Ok(());
    };
    let [old, olds_behind @ ..] = olds else {
        return Ok(());
    };
    let [new, news_behind @ ..] = news else {
        return Ok(());
    };
    put_change(out, *fact, old, new)?;
    put_changes(out, facts_behind, olds_behind, news_behind)
}

/// The facts whose values differ: those of a certificate, and those that hold now.
pub fn changes<'a, 'b>(
    alloc: Global,
    olds: &[&'a [u8]],
    news: &[&'b [u8]],
) -> Result<Vec<Change<'a, 'b>>, AllocError>
    ensures { IfOk result (λ all. map difference_of all.items
        ≡ differences facts (map (λ value. value.now) olds.now) (map (λ value. value.now) news.now)) }
{
    let mut all = Vec::new(alloc);
    put_changes(&mut all, &FACTS, olds, news)?;
    Ok(all)
}
