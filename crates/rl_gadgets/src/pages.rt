//! The pages of a line: their titles.
ghost use Rattle.std.specs.Prelude.{◌≡◌, ◌||◌, ◌++◌, IfOk, codes, map, filter, option_map, nat_eq};
ghost use Rattle.std.specs.List.{ends_with, list_any};
ghost use Rattle.rl_names.specs.Packing.{distinct};
ghost use Rattle.rl_gadgets.specs.Line.{all_titles, has_ending, is_page, page_title, titles_with};

use rl_names::{NoMemory, Title, TitleError};
use std::alloc::Global;
use std::collections::BTreeSet;

/// Whether a page is a script or a style.
fn is_page(page: &str) -> bool
    ensures { result ≡ is_page page.now }
{
    page.as_bytes().ends_with(b".js") || page.as_bytes().ends_with(b".css")
}

/// Whether one of the pages is a script or a style.
pub(crate) fn has_page(pages: &[&str]) -> bool
    ensures { result ≡ list_any is_page (map (λ x. x.now) pages.now) }
{
    'pages: for page in pages {
        if is_page(page) {
            return true;
        }
    }
    false
}

/// The title of a page, if it gives one.
fn page_title(alloc: Global, page: &str) -> Result<Option<Title>, NoMemory>
    ensures { IfOk result (λ title. title ≡ page_title page.now) }
{
    let mut text = String::new(alloc);
    text.push_str("MediaWiki:Gadget-")?;
    text.push_str(page)?;
    match Title::read(alloc, text.as_bytes()) {
        Ok(title) => Ok(Some(title)),
        Err(TitleError::BadTitle) => Ok(None),
        Err(TitleError::NoMemory) => Err(NoMemory),
    }
}

/// The pages that end so.
fn ending_so<'a>(alloc: Global, pages: &[&'a str], ending: &[u8]) -> Result<Vec<&'a str>, NoMemory>
    ensures { IfOk result (λ v. map (λ x. x.now) v.items ≡ filter (has_ending ending.now) (map (λ x. x.now) pages.now)) }
{
    let mut kept = Vec::new(alloc);
    'pages: for page in pages {
        if page.as_bytes().ends_with(ending) {
            kept.push(*page)?;
        }
    }
    Ok(kept)
}

/// The titles of pages, if each gives one.
fn all_titles(alloc: Global, pages: &[&str]) -> Result<Option<Vec<Title>>, NoMemory>
    ensures { IfOk result (λ titles. option_map (λ v. v.items) titles ≡ all_titles (map (λ x. x.now) pages.now)) }
{
    let mut titles = Vec::with_capacity(alloc, pages.len())?;
    'pages: for page in pages {
        let Some(title) = page_title(alloc, page)? else {
            return Ok(None);
        };
        titles.push(title)?;
    }
    Ok(Some(titles))
}

/// Each title once, at its first place.
fn distinct(alloc: Global, titles: &[Title]) -> Result<Vec<Title>, NoMemory>
    ensures { IfOk result (λ v. v.items ≡ distinct titles.now) }
{
    let mut seen = BTreeSet::new(alloc);
    let mut kept = Vec::new(alloc);
    'titles: for title in titles {
        if seen.insert(title.as_str())? {
            kept.push(title.copy()?)?;
        }
    }
    Ok(kept)
}

/// The titles of the pages that end so, each once, if each gives one.
pub(crate) fn titles_with(
    alloc: Global,
    pages: &[&str],
    ending: &[u8],
) -> Result<Option<Vec<Title>>, NoMemory>
    ensures { IfOk result (λ titles. option_map (λ v. v.items) titles ≡ titles_with ending.now (map (λ x. x.now) pages.now)) }
{
    let pages = ending_so(alloc, pages, ending)?;
    match all_titles(alloc, &pages)? {
        Some(titles) => Ok(Some(distinct(alloc, &titles)?)),
        None => Ok(None),
    }
}
