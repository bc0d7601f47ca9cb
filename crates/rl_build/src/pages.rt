//! The scripts of built-in modules, from what a viewer sees of the history.
ghost use Rattle.std.specs.Prelude.{◌≡◌, ◌++◌, codes, IfOk, IsUtf8, OnOk, string_bytes};
ghost use Rattle.serde_json.specs.Written.{compact_text};
ghost use Rattle.rl_wire.specs.Message.{messages_value};
ghost use Rattle.rl_pages.specs.Seen.{options_in, shown};
ghost use Rattle.rl_build.specs.Page.{own_page as own_page_of, own_pages, page_lines, pages_joined, site_page as site_page_of, site_pages, upper_first};
ghost use Rattle.rl_build.specs.Payload.{built_in_script, options_script as options_script_of};

use crate::built_in::BuiltIn;
use crate::context::Context;
use crate::options::options_object;
use rl_names::{NoMemory, Text, Title, TitleError};
use rl_pages::{Pages, Viewer};
use std::alloc::Global;

/// Adds the text of a page and a line end, where the viewer sees such a page.
fn push_page(
    alloc: Global,
    out: &mut String,
    pages: &Pages,
    viewer: &Viewer,
    title: &[u8],
) -> Result<(), NoMemory>
    ensures { OnOk result (string_bytes out.new ≡ string_bytes out.old ++ page_lines (shown pages.now.entries viewer.now) title.now) }
{
    let title = match Title::read(alloc, title) {
        Ok(title) => title,
        Err(TitleError::BadTitle) => return Ok(()),
        Err(TitleError::NoMemory) => return Err(NoMemory),
    };
    if let Some(text) = pages.str_seen(viewer, &title) {
        out.push_str(text)?;
        out.push_str("\n")?;
    }
    Ok(())
}

/// Adds a text with its first byte in upper case.
fn push_upper_first(out: &mut Vec<u8>, text: &[u8]) -> Result<(), NoMemory>
    ensures { OnOk result (out.new.items ≡ out.old.items ++ upper_first text.now) }
{
    if let [first, rest @ ..] = text {
        out.push(first.to_ascii_uppercase())?;
        out.extend_from_slice(rest)?;
    }
    Ok(())
}

/// The title of the site's page for a skin.
fn site_page(alloc: Global, skin: &[u8]) -> Result<Vec<u8>, NoMemory>
    ensures { IfOk result (λ t. t.items ≡ site_page_of skin.now) }
{
    let mut title = Vec::from_slice(alloc, b"MediaWiki:")?;
    push_upper_first(&mut title, skin)?;
    title.extend_from_slice(b".js")?;
    Ok(title)
}

/// The title of a user's page.
fn own_page(alloc: Global, name: &str, page: &str) -> Result<String, NoMemory>
    ensures { IfOk result (λ t. string_bytes t ≡ own_page_of name.now page.now) }
{
    Ok(format!(in alloc; "User:{name}/{page}.js")?)
}

/// The scripts of the site, for every skin and for this one.
fn site_script(
    alloc: Global,
    pages: &Pages,
    viewer: &Viewer,
    skin: &str,
) -> Result<String, NoMemory>
    ensures { IfOk result (λ t. string_bytes t ≡ pages_joined (shown pages.now.entries viewer.now) (site_pages skin.now)) }
{
    let page = site_page(alloc, skin.as_bytes())?;
    let mut out = String::new(alloc);
    push_page(alloc, &mut out, pages, viewer, b"MediaWiki:Common.js")?;
    push_page(alloc, &mut out, pages, viewer, &page)?;
    Ok(out)
}

/// The scripts of the viewer, for every skin and for this one.
fn own_script(alloc: Global, pages: &Pages, viewer: &Viewer, skin: &str) -> Result<String, NoMemory>
    ensures { IfOk result (λ t. string_bytes t ≡ pages_joined (shown pages.now.entries viewer.now) (own_pages viewer.now skin.now)) }
{
    let mut out = String::new(alloc);
    if let Viewer::User(name) = viewer {
        let common = own_page(alloc, name.as_str(), "common")?;
        let own = own_page(alloc, name.as_str(), skin)?;
        push_page(alloc, &mut out, pages, viewer, common.as_bytes())?;
        push_page(alloc, &mut out, pages, viewer, own.as_bytes())?;
    }
    Ok(out)
}

/// The call that sets the viewer's options.
fn options_script(alloc: Global, pages: &Pages, viewer: &Viewer) -> Result<String, NoMemory>
    ensures { IfOk result (λ t. string_bytes t ≡ options_script_of (options_in (shown pages.now.entries viewer.now))) }
{
    let options = options_object(alloc, pages, viewer)?;
    let mut out = String::from_str(alloc, "mw.user.options.set(")?;
    out.push_str(options.as_str())?;
    out.push_str(");\n")?;
    Ok(out)
}

/// The script of a built-in module.
pub(crate) fn built_in_script(
    alloc: Global,
    pages: &Pages,
    viewer: &Viewer,
    ctx: &Context,
    built_in: BuiltIn,
) -> Result<Text, NoMemory>
    ensures value { IfOk result (λ t. t ≡ built_in_script (shown pages.now.entries viewer.now) ctx.now built_in) }
    ensures utf8 { IfOk result IsUtf8 }
{
    let script = match built_in {
        BuiltIn::Site => site_script(alloc, pages, viewer, ctx.skin.as_str())?,
        BuiltIn::User => own_script(alloc, pages, viewer, ctx.skin.as_str())?,
        BuiltIn::UserOptions => options_script(alloc, pages, viewer)?,
        BuiltIn::SiteStyles | BuiltIn::UserStyles => String::new(alloc),
    };
    Ok(Text::from_string(script))
}
