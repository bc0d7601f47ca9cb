//! What an author is told of a wiki: how much its definitions have, and which lines of its gadget list count.
ghost use Rattle.std.specs.Prelude.{◌≡◌, ◌++◌, IfOk, OnOk, flat_map};
ghost use Rattle.rl_cli.specs.Check.{check_text, counted_line, gadget_line, gadget_list, list_text, passed_line};

use rl_gadgets::{Gadget, GadgetList, read_gadgets};
use rl_names::{NoMemory, Title, TitleError};
use rl_pages::{Pages, Viewer};
use rl_reply::{write, write_line, write_number};
use rl_wiki::Wiki;
use std::alloc::Global;

/// Adds a line with a word and a number.
fn write_count(out: &mut Vec<u8>, word: &str, count: usize) -> Result<(), NoMemory>
    ensures { OnOk result (out.new.items ≡ out.old.items ++ counted_line word.now count) }
{
    write(out, word)?;
    write(out, " ")?;
    write_number(out, count as u64)?;
    write_line(out, "")
}

/// Adds the line of a gadget.
fn write_gadget(out: &mut Vec<u8>, gadget: &Gadget) -> Result<(), NoMemory>
    ensures { OnOk result (out.new.items ≡ out.old.items ++ gadget_line gadget.now) }
{
    write(out, "gadget ")?;
    write(out, gadget.name.as_str())?;
    if gadget.for_all {
        write_line(out, " default")
    } else {
        write_line(out, "")
    }
}

/// Adds the lines of gadgets.
fn write_gadgets(out: &mut Vec<u8>, gadgets: &[Gadget]) -> Result<(), NoMemory>
    ensures { OnOk result (out.new.items ≡ out.old.items ++ flat_map gadget_line gadgets.now) }
{
    'gadgets: for gadget in gadgets {
        write_gadget(out, gadget)?;
    }
    Ok(())
}

/// Adds the line of a number of a line that was passed over.
fn write_number_passed(out: &mut Vec<u8>, number: u32) -> Result<(), NoMemory>
    ensures { OnOk result (out.new.items ≡ out.old.items ++ passed_line number) }
{
    write(out, "passed ")?;
    write_number(out, number.into())?;
    write_line(out, "")
}

/// Adds the lines of the numbers of lines that were passed over.
fn write_passed(out: &mut Vec<u8>, numbers: &[u32]) -> Result<(), NoMemory>
    ensures { OnOk result (out.new.items ≡ out.old.items ++ flat_map passed_line numbers.now) }
{
    'numbers: for number in numbers {
        write_number_passed(out, *number)?;
    }
    Ok(())
}

/// Adds what a gadget list says.
fn write_list(out: &mut Vec<u8>, list: &GadgetList) -> Result<(), NoMemory>
    ensures { OnOk result (out.new.items ≡ out.old.items ++ list_text list.now) }
{
    write_gadgets(out, list.rows.as_slice())?;
    write_passed(out, list.passed.as_slice())
}

/// The gadget list of a wiki, whose page every viewer sees.
fn gadgets_of(alloc: Global, pages: &Pages) -> Result<GadgetList, NoMemory>
    ensures { IfOk result (λ list. list ≡ gadget_list pages.now.entries) }
{
    let title = match Title::read(alloc, b"MediaWiki:Gadgets-definition") {
        Ok(title) => title,
        Err(TitleError::BadTitle) => return read_gadgets(alloc, b""),
        Err(TitleError::NoMemory) => return Err(NoMemory),
    };
    match pages.str_seen(&Viewer::Anon, &title) {
        Some(page) => read_gadgets(alloc, page.as_bytes()),
        None => read_gadgets(alloc, b""),
    }
}

/// What an author is told of a wiki.
pub fn check_text(alloc: Global, wiki: &Wiki) -> Result<Vec<u8>, NoMemory>
    ensures { IfOk result (λ text. text.items ≡ check_text wiki.now.catalogue wiki.now.entries) }
{
    let list = gadgets_of(alloc, wiki.pages())?;
    let catalog = wiki.catalog();
    let mut out = Vec::new(alloc);
    write_count(&mut out, "modules", catalog.modules().len())?;
    write_count(&mut out, "languages", catalog.languages().len())?;
    write_count(&mut out, "skins", catalog.skins().len())?;
    write_list(&mut out, &list)?;
    Ok(out)
}
