//! The pages that explain messages, as `pascal explain` shows them.

ghost use Rattle.std.specs.Prelude.{◌≡◌, ◌++◌, [], ◌∷◌, IfOk, List, OnOk, codes, fold, string_bytes};
ghost use Rattle.pascal_pages.specs.declared.Page.{Page};
ghost use Rattle.pascal_cli.specs.Explain.{AreThePages, asked_pages, parted, shown, titles, with_page};

use pascal_pages::{COUNT, Page, asks_for, page_at};
use std::alloc::{AllocError, Global};

// Adds an empty line, if there is text before it.
fn part(text: &mut String) -> Result<(), AllocError>
    ensures { OnOk result (string_bytes text.new ≡ parted (string_bytes text.old)) }
{
    if text.is_empty() {
        return Ok(());
    }
    text.push_str("\n")
}

// Adds a page.
fn add_page(text: &mut String, page: &Page) -> Result<(), AllocError>
    ensures { OnOk result (string_bytes text.new ≡ with_page (string_bytes text.old) page.now) }
{
    part(text)?;
    text.push_str(page.title)?;
    text.push_str("\n\n")?;
    text.push_str(page.text)
}

// Adds a page, if the topic selects it.
fn add_asked(text: &mut String, page: &Page, topic: &str) -> Result<(), AllocError>
    ensures { OnOk result (string_bytes text.new ≡ fold with_page (string_bytes text.old)
        (asked_pages topic.now (page.now ∷ []))) }
{
    if asks_for(page, topic) {
        add_page(text, page)
    } else {
        Ok(())
    }
}

/// The pages that a topic selects, with an empty line between two; no bytes if it selects none.
pub fn pages_on(alloc: Global, topic: &str) -> Result<String, AllocError>
    ensures { IfOk result (λ text. (all : List Page) × AreThePages all
        × (string_bytes text ≡ shown (asked_pages topic.now all))) }
{
    let mut text = String::new(alloc);
    for at in 0..COUNT {
        if let Some(page) = page_at(at) {
            add_asked(&mut text, &page, topic)?;
        }
    }
    Ok(text)
}

// Adds a title, on a line of its own.
fn add_title(text: &mut String, page: &Page) -> Result<(), AllocError>
    ensures { OnOk result (string_bytes text.new ≡ string_bytes text.old ++ (page.now.title.now ++ codes "\n")) }
{
    text.push_str(page.title)?;
    text.push_str("\n")
}

/// The titles of all pages, a line for each.
pub fn titles(alloc: Global) -> Result<String, AllocError>
    ensures { IfOk result (λ text. string_bytes text ≡ titles) }
{
    let mut text = String::new(alloc);
    for k in 0..COUNT {
        if let Some(page) = page_at(k) {
            add_title(&mut text, &page)?;
        }
    }
    Ok(text)
}
