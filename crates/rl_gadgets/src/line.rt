//! One line of the list: the gadget that it defines.
ghost use Rattle.std.specs.Prelude.{◌≡◌, IfOk, if◌then◌else◌, codes, map, Some, None};
ghost use Rattle.std.specs.Result.{result_ok};
ghost use Rattle.rl_names.specs.Name.{is_name};
ghost use Rattle.rl_gadgets.specs.Line.{gadget_by, gadget_in, has_option, listed, module_name, underscored};

use crate::cut::{before_bar, bracketed, is_blank, name_and_rest, pages_in, trimmed, words};
use crate::gadget::Gadget;
use crate::options::{dependencies, has_option, listed, texts};
use crate::pages::{has_page, titles_with};
use rl_names::{Name, NameError, NoMemory, Seq, Title};
use std::alloc::Global;

/// A byte of a gadget's name as its module's name has it.
fn underscored(byte: u8) -> u8
    ensures { result ≡ underscored byte }
{
    if byte == b' ' { b'_' } else { byte }
}

/// The bytes of the module's name.
fn module_name(alloc: Global, text: &str) -> Result<Vec<u8>, NoMemory>
    ensures { IfOk result (λ v. v.items ≡ module_name text.now) }
{
    let mut name = Vec::from_slice(alloc, b"ext.gadget.")?;
    let own = trimmed(text).as_bytes();
    'bytes: for byte in own {
        name.push(underscored(*byte))?;
    }
    Ok(name)
}

/// The name that bytes are, if they are one.
fn name_of(alloc: Global, bytes: &[u8]) -> Result<Option<Name>, NoMemory>
    ensures { IfOk result (λ name. name ≡ (if is_name bytes.now then Some bytes.now else None)) }
{
    match Name::read(alloc, bytes) {
        Ok(name) => Ok(Some(name)),
        Err(NameError::Empty) => Ok(None),
        Err(NameError::TooLong { .. }) => Ok(None),
        Err(NameError::BadByte { .. }) => Ok(None),
        Err(NameError::LeadingDot) => Ok(None),
        Err(NameError::NoMemory) => Err(NoMemory),
    }
}

/// What a line says besides its name.
#[derive(Drop)]
struct Parts<'a> {
    options: Vec<&'a str>,
    between: &'a str,
    pages: Vec<&'a str>,
}

/// The gadget of these pages and dependencies, with what its options say besides.
fn built(
    alloc: Global,
    number: u32,
    name: Name,
    options: &[&str],
    scripts: Vec<Title>,
    styles: Vec<Title>,
    deps: Vec<Name>,
) -> Result<Gadget, NoMemory>
    ensures { IfOk result (λ gadget. gadget ≡ record {
      name = name;
      line = number;
      scripts = scripts.items;
      styles = styles.items;
      deps = deps.items;
      skins = listed (codes "skins") (map (λ x. x.now) options.now);
      for_all = has_option (codes "default") (map (λ x. x.now) options.now);
    }) }
{
    let skins = listed(alloc, options, "skins")?;
    let skins = texts(alloc, &skins)?;
    Ok(Gadget {
        name,
        line: number,
        scripts: Seq::of(scripts),
        styles: Seq::of(styles),
        deps: Seq::of(deps),
        skins: Seq::of(skins),
        for_all: has_option(options, "default"),
    })
}

/// The gadget that parts define, if they define one.
fn gadget_by(
    alloc: Global,
    number: u32,
    name: Name,
    parts: &Parts<'_>,
) -> Result<Option<Gadget>, NoMemory>
    ensures { IfOk result (λ gadget. gadget ≡ result_ok (gadget_by number (record {
      name = name;
      options = map (λ x. x.now) parts.now.options.items;
      between = parts.now.between.now;
      pages = map (λ x. x.now) parts.now.pages.items;
    }))) }
{
    if !is_blank(parts.between) || !has_page(&parts.pages) {
        return Ok(None);
    }
    let Some(scripts) = titles_with(alloc, &parts.pages, b".js")? else {
        return Ok(None);
    };
    let Some(styles) = titles_with(alloc, &parts.pages, b".css")? else {
        return Ok(None);
    };
    if !has_option(&parts.options, "ResourceLoader") {
        return Ok(None);
    }
    let words = listed(alloc, &parts.options, "dependencies")?;
    let Some(deps) = dependencies(alloc, &words)? else {
        return Ok(None);
    };
    let gadget = built(alloc, number, name, &parts.options, scripts, styles, deps)?;
    Ok(Some(gadget))
}

/// The gadget that a line defines, if it defines one. Its stars and the spaces behind them are left out.
pub(crate) fn gadget_in(alloc: Global, number: u32, text: &str) -> Result<Option<Gadget>, NoMemory>
    ensures { IfOk result (λ gadget. gadget ≡ result_ok (gadget_in number text.now)) }
{
    let (name, rest) = name_and_rest(text);
    let name = module_name(alloc, name)?;
    let Some(name) = name_of(alloc, &name)? else {
        return Ok(None);
    };
    let Some((inside, behind)) = bracketed(rest) else {
        return Ok(None);
    };
    let parts = Parts {
        options: words(alloc, inside, '|')?,
        between: before_bar(behind),
        pages: pages_in(alloc, behind)?,
    };
    gadget_by(alloc, number, name, &parts)
}
