//! The texts of files one after another, and names as texts.
ghost use Rattle.std.specs.Prelude.{◌≡◌, ◌++◌, IfOk, IsUtf8, OnOk, string_bytes};
ghost use Rattle.rl_names.specs.Packing.{distinct as distinct_of};
ghost use Rattle.rl_build.specs.Payload.{file_lines, joined as joined_of};

use rl_defs::Catalog;
use rl_names::{Name, NoMemory, Seq, Text, distinct};
use std::alloc::Global;

/// Adds the text of a file and a line end, where the file is there.
fn push_file(out: &mut String, catalog: &Catalog, file: &str) -> Result<(), NoMemory>
    ensures { OnOk result (string_bytes out.new ≡ string_bytes out.old ++ file_lines catalog.now file.now) }
{
    if let Some(text) = catalog.file_text(file) {
        out.push_str(text)?;
        out.push_str("\n")?;
    }
    Ok(())
}

/// The texts of files one after another, each file once.
pub(crate) fn joined(alloc: Global, catalog: &Catalog, files: &[Text]) -> Result<Text, NoMemory>
    ensures value { IfOk result (λ t. t ≡ joined_of catalog.now files.now) }
    ensures utf8 { IfOk result IsUtf8 }
{
    let once = distinct(alloc, files)?;
    let mut out = String::new(alloc);
    'files: for file in &once {
        push_file(&mut out, catalog, file.as_str())?;
    }
    Ok(Text::from_string(out))
}

fn texts_of(alloc: Global, names: &[Name]) -> Result<Vec<Text>, NoMemory>
    ensures { IfOk result (λ v. v.items ≡ names.now) }
{
    let mut texts = Vec::with_capacity(alloc, names.len())?;
    'names: for name in names {
        texts.push(Text::of(alloc, name.as_str())?)?;
    }
    Ok(texts)
}

/// Names as texts, each once.
pub(crate) fn distinct_names(alloc: Global, names: &[Name]) -> Result<Seq<Text>, NoMemory>
    ensures { IfOk result (λ t. t ≡ distinct_of names.now) }
{
    let texts = texts_of(alloc, names)?;
    Ok(Seq::of(distinct(alloc, &texts)?))
}
