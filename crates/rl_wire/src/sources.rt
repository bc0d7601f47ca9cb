//! The first line of a startup text: where the modules of each source are served.
ghost use Rattle.std.specs.Prelude.{◌≡◌, ◌++◌, OnOk, IfOk, IfSome, option_map, string_bytes};
ghost use Rattle.serde_json.specs.Data.{object};
ghost use Rattle.serde_json.specs.View.{members_view};
ghost use Rattle.rl_wire.specs.Line.{arguments_text};
ghost use Rattle.rl_wire.specs.Startup.{source_members, sources_arguments, sources_text, AreOrdered, AreSources};
ghost use Rattle.rl_wire.specs.StartupReading.{sources_among, if_sources, sources_in};
ghost use Rattle.rl_wire.specs.Tokens.{value_tokens, Adds};

use crate::read::{argument_in, object_in, text_in};
use crate::values::{take_out, text_of};
use json::Writer;
use rl_names::{NoMemory, Source, Text};
use serde_json::{Map, Value};
use std::alloc::Global;

/// Writes the addresses under the names of their sources.
fn write_sources(json: &mut Writer, sources: &[Source]) -> Result<(), NoMemory>
    ensures adds { Adds result json.old json.new (value_tokens (object (source_members sources.now))) }
    ensures sources { OnOk result (AreSources sources.now) }
{
    json.begin_object()?;
    'sources: for source in sources {
        json.key(source.name.as_str())?;
        json.string(source.url.as_str())?;
    }
    json.end_object()?;
    Ok(())
}

/// Adds what the line of the sources is given.
fn add_arguments(alloc: Global, out: &mut String, sources: &[Source]) -> Result<(), NoMemory>
    ensures text { OnOk result (string_bytes out.new ≡ string_bytes out.old ++ arguments_text (sources_arguments sources.now)) }
    ensures sources { OnOk result (AreSources sources.now) }
{
    let mut json = take_out(alloc, out);
    write_sources(&mut json, sources)?;
    *out = text_of(json);
    Ok(())
}

/// Adds the line of the sources, without its end.
pub(crate) fn add_sources(
    alloc: Global,
    out: &mut String,
    sources: &[Source],
) -> Result<(), NoMemory>
    ensures text { OnOk result (string_bytes out.new ≡ string_bytes out.old ++ sources_text sources.now) }
    ensures sources { OnOk result (AreSources sources.now) }
{
    out.push_str("mw.loader.addSource(")?;
    add_arguments(alloc, out, sources)?;
    out.push_str(");")?;
    Ok(())
}

/// The addresses of an object, under the names of their sources.
fn sources_among(alloc: Global, members: Map<String, Value>) -> Result<Vec<Source>, NoMemory>
    ensures value { IfOk result (λ v. v.items ≡ sources_among (members_view members.entries)) }
    ensures ordered { IfOk result (λ v. AreOrdered v.items) }
{
    let mut sources = Vec::with_capacity(alloc, members.len())?;
    'members: for (name, value) in members {
        if let Some(url) = text_in(value) {
            sources.push(Source {
                name: Text::from_string(name),
                url,
            })?;
        }
    }
    Ok(sources)
}

/// The sources, where the bytes are their line, without its end.
fn if_sources(
    alloc: Global,
    line: &[u8],
    sources: Vec<Source>,
) -> Result<Option<Vec<Source>>, NoMemory>
    ensures value { IfOk result (λ found. option_map (λ v. v.items) found ≡ if_sources line.now sources.items) }
    ensures found { IfOk result (λ found. IfSome found (λ v. v.items ≡ sources.items)) }
{
    let mut text = String::new(alloc);
    text.reserve(line.len())?;
    add_sources(alloc, &mut text, &sources)?;
    if text.as_bytes() == line {
        Ok(Some(sources))
    } else {
        Ok(None)
    }
}

/// The sources whose line the bytes are, without its end.
pub(crate) fn sources_in(alloc: Global, line: &[u8]) -> Result<Option<Vec<Source>>, NoMemory>
    ensures value { IfOk result (λ sources. option_map (λ v. v.items) sources ≡ sources_in line.now) }
    ensures ordered { IfOk result (λ sources. IfSome sources (λ v. AreOrdered v.items)) }
{
    let Some(argument) = argument_in(alloc, line, 20)? else {
        return Ok(None);
    };
    let Some(members) = object_in(argument) else {
        return Ok(None);
    };
    let sources = sources_among(alloc, members)?;
    if_sources(alloc, line, sources)
}
