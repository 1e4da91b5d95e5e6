// What is claimed of one value or word, and of all of them one by one.

ghost use Rattle.std.specs.Prelude.{◌≡◌, ◌<◌, map, length, slice_get, not, ◌&&◌};
ghost use Rattle.tac_pass.specs.Certified.{is_passed, are_passed, is_new, are_new};
ghost use Rattle.tac_pass.specs.Tables as table;

use crate::table::{Known, Reach, Rows, Word};

/// Nothing is known of a value.
pub fn unknown() -> Known
    ensures { result ≡ table.unknown }
{
    Known {
        holder: None,
        reach: Reach::Anywhere,
    }
}

// A word that is not kept in mind: both codes store it.
pub(super) fn unminded() -> Word
    ensures { result ≡ table.unminded }
{
    Word {
        value: unknown(),
        stale: false,
        blank: true,
    }
}

// A new temporary holds a value no more.
fn freed(temporary: u32, value: Known) -> Known
    ensures { result ≡ table.freed temporary value }
{
    let Some(holder) = value.holder else {
        return value;
    };
    if holder == temporary {
        return Known {
            holder: None,
            reach: value.reach,
        };
    }
    value
}

fn freed_word(temporary: u32, word: Word) -> Word
    ensures { result ≡ table.freed_word temporary word }
{
    Word {
        value: freed(temporary, word.value),
        stale: word.stale,
        blank: word.blank,
    }
}

pub(super) fn free_values(values: &mut [Known], temporary: u32)
    ensures { values.new ≡ map (table.freed temporary) values.old }
{
    for at in 0..values.len() {
        values[at] = freed(temporary, values[at]);
    }
}

pub(super) fn free_words(words: &mut [Word], temporary: u32)
    ensures { words.new ≡ map (table.freed_word temporary) words.old }
{
    for at in 0..words.len() {
        words[at] = freed_word(temporary, words[at]);
    }
}

/// Whether what is `bytes` bytes after an address may be part of a word.
pub fn may_hit(reach: Reach, bytes: u32, word: u32) -> bool
    ensures { result ≡ table.may_hit reach bytes word }
{
    match reach {
        Reach::Anywhere => true,
        Reach::Within(low, high) => {
            let from = 4 * word as u64;
            let further = bytes as u64;
            low as u64 + further < from + 4 && from < high as u64 + further
        }
    }
}

// Whether what may point into the one may point into the other.
fn is_within(inner: Reach, outer: Reach) -> bool
    ensures { result ≡ table.is_within inner outer }
{
    match outer {
        Reach::Anywhere => true,
        Reach::Within(lowest, highest) => match inner {
            Reach::Anywhere => false,
            Reach::Within(low, high) => low >= high || (low >= lowest && high <= highest),
        },
    }
}

fn holds_no_more(from: Option<u32>, to: Option<u32>) -> bool
    ensures { result ≡ table.holds_no_more from to }
{
    let Some(wanted) = to else {
        return true;
    };
    match from {
        Some(holder) => holder == wanted,
        None => false,
    }
}

fn is_no_more(from: Known, to: Known) -> bool
    ensures { result ≡ table.is_no_more from to }
{
    holds_no_more(from.holder, to.holder) && is_within(from.reach, to.reach)
}

fn is_no_more_word(from: Word, to: Word) -> bool
    ensures { result ≡ table.is_no_more_word from to }
{
    is_no_more(from.value, to.value) && ((to.stale || !from.stale) && (to.blank || !from.blank))
}

fn is_no_more_at(from: &[Known], to: &[Known], at: usize) -> bool
    requires here { at < length from.now }
    requires there { at < length to.now }
    ensures { result ≡ table.is_no_more (table.or_unknown (slice_get from.now at))
        (table.or_unknown (slice_get to.now at)) }
{
    is_no_more(from[at], to[at])
}

// Whether of no value more is claimed than of another.
pub(super) fn are_no_more(from: &[Known], to: &[Known]) -> bool
    requires { length from.now ≡ length to.now }
    ensures { result ≡ table.all_no_more table.is_no_more from.now to.now }
{
    for at in 0..to.len() {
        if !is_no_more_at(from, to, at) {
            return false;
        }
    }
    true
}

pub(super) fn are_no_more_words(from: &[Word], to: &[Word]) -> bool
    requires { length from.now ≡ length to.now }
    ensures { result ≡ table.all_no_more table.is_no_more_word from.now to.now }
{
    for at in 0..to.len() {
        if !is_no_more_word(from[at], to[at]) {
            return false;
        }
    }
    true
}

// Whether no word is stale.
pub(super) fn are_fresh(words: &[Word]) -> bool
    ensures { result ≡ table.are_fresh words.now }
{
    for at in 0..words.len() {
        if words[at].stale {
            return false;
        }
    }
    true
}

// The place of a word among those that are kept in mind.
#[tactic(auto, using(crate::proofs::Rows::further_more, crate::proofs::Rows::further_none))]
pub(super) fn place(minded: &[u32], word: u32) -> Option<usize>
    ensures { result ≡ table.place_of minded.now word }
{
    for at in 0..minded.len() {
        if minded[at] == word {
            return Some(at);
        }
    }
    None
}

// What is known of a word that a store may have come to.
fn hit(is_hit: bool, word: Word) -> Word
    ensures { result ≡ table.hit is_hit word }
{
    if is_hit {
        return Word {
            value: unknown(),
            stale: word.stale,
            blank: word.blank,
        };
    }
    word
}

fn is_seen_word(reach: Reach, bytes: u32, number: u32, word: Word) -> bool
    ensures { result ≡ not (table.may_hit reach bytes number && word.stale) }
{
    !(may_hit(reach, bytes, number) && word.stale)
}

// Whether no word that may be hit is stale.
pub(super) fn sees_all(reach: Reach, bytes: u32, minded: &[u32], words: &[Word]) -> bool
    ensures { result ≡ table.sees_all reach bytes minded.now words.now }
{
    for at in 0..words.len() {
        if at >= minded.len() {
            return true;
        }
        if !is_seen_word(reach, bytes, minded[at], words[at]) {
            return false;
        }
    }
    true
}

pub(super) fn hit_all(reach: Reach, bytes: u32, minded: &[u32], words: &mut [Word])
    ensures { words.new ≡ table.hit_all reach bytes minded.now words.old }
{
    for at in 0..words.len() {
        if at >= minded.len() {
            return;
        }
        words[at] = hit(may_hit(reach, bytes, minded[at]), words[at]);
    }
}

// A new temporary holds a word, unless another does.
pub(super) fn held_word(temporary: u32, word: Word) -> Word
    ensures { result ≡ table.held_word temporary word }
{
    let holder = match word.value.holder {
        Some(holder) => Some(holder),
        None => Some(temporary),
    };
    Word {
        value: Known {
            holder,
            reach: word.value.reach,
        },
        stale: word.stale,
        blank: word.blank,
    }
}

// What is known after a call of a word that was not stale before it.
fn called_word(word: Word) -> Word
    ensures { result ≡ table.called_word word }
{
    Word {
        value: unknown(),
        stale: false,
        blank: word.blank,
    }
}

pub(super) fn call_words(words: &mut [Word])
    ensures { words.new ≡ map table.called_word words.old }
{
    for at in 0..words.len() {
        words[at] = called_word(words[at]);
    }
}

pub(super) fn copy_values(values: &mut [Known], with: &[Known])
    requires { length values.old ≡ length with.now }
    ensures { values.new ≡ with.now }
{
    for at in 0..values.len() {
        values[at] = with[at];
    }
}

pub(super) fn copy_words(words: &mut [Word], with: &[Word])
    requires { length words.old ≡ length with.now }
    ensures { words.new ≡ with.now }
{
    for at in 0..words.len() {
        words[at] = with[at];
    }
}

fn is_nowhere(reach: Reach) -> bool {
    match reach {
        Reach::Anywhere => false,
        Reach::Within(low, high) => low >= high,
    }
}

// Where a value may point that is one of two.
fn wider(one: Reach, other: Reach) -> Reach {
    if is_nowhere(one) {
        return other;
    }
    if is_nowhere(other) {
        return one;
    }
    let Reach::Within(low, high) = one else {
        return Reach::Anywhere;
    };
    let Reach::Within(lowest, highest) = other else {
        return Reach::Anywhere;
    };
    Reach::Within(low.min(lowest), high.max(highest))
}

fn met(one: Known, other: Known) -> Known {
    let holder = if holds_no_more(other.holder, one.holder) {
        one.holder
    } else {
        None
    };
    Known {
        holder,
        reach: wider(one.reach, other.reach),
    }
}

pub(super) fn meet_values(values: &mut [Known], others: &[Known]) {
    for at in 0..values.len() {
        if at < others.len() {
            values[at] = met(values[at], others[at]);
        }
    }
}

pub(super) fn meet_words(words: &mut [Word], others: &[Word]) {
    for at in 0..words.len() {
        if at < others.len() {
            let (one, other) = (words[at], others[at]);
            words[at] = Word {
                value: met(one.value, other.value),
                stale: one.stale || other.stale,
                blank: one.blank || other.blank,
            };
        }
    }
}

// Whether a temporary that holds a value at the begin is that of its parameter.
fn is_passed(temporary: usize, value: Known) -> bool
    ensures { result ≡ is_passed temporary value.holder }
{
    match value.holder {
        Some(holder) => holder as usize == temporary,
        None => true,
    }
}

pub(super) fn are_passed(values: &[Known]) -> bool
    ensures { result ≡ are_passed 0 values.now }
{
    for at in 0..values.len() {
        if !is_passed(at, values[at]) {
            return false;
        }
    }
    true
}

// Whether a word may be so at the begin: not written, and held by nothing.
fn is_new(word: Word) -> bool
    ensures { result ≡ is_new word.value.holder word.blank }
{
    match word.value.holder {
        Some(_) => false,
        None => word.blank,
    }
}

pub(super) fn are_new(words: &[Word]) -> bool
    ensures { result ≡ are_new words.now }
{
    for at in 0..words.len() {
        if !is_new(words[at]) {
            return false;
        }
    }
    true
}
