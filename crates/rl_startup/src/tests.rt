//! Rows and startup texts of a few modules, with ample memory.
use crate::{rows, startup_text};
use rl_build::Context;
use rl_defs::Catalog;
use rl_names::{NoMemory, Row, Text};
use rl_pages::{Pages, Viewer};
use rl_wire::read_startup;
use std::alloc::Global;
use std::test::Fail;

/// `a` needs `b` and `c`, and `b` needs `c`.
const THREE: &str = r#"
[wiki]
skins = ["vector"]
[files]
"a.js" = "a()"
"b.js" = "b()"
[modules.a]
scripts = ["a.js"]
dependencies = ["b", "c"]
[modules.b]
scripts = ["b.js"]
dependencies = ["c"]
[modules.c]
"#;

fn context(alloc: Global, catalog: &Catalog) -> Result<Context, NoMemory> {
    Context::read(alloc, catalog, b"en", b"vector", false)
}

/// How many dependencies the first row has.
fn needs_of_first(alloc: Global, catalog: &Catalog) -> Result<usize, NoMemory> {
    let pages = Pages::empty(alloc)?;
    let ctx = context(alloc, catalog)?;
    let rows = rows(alloc, catalog, &pages, &Viewer::Anon, &ctx)?;
    Ok(rows.first().map_or(0, |row| row.deps.as_slice().len()))
}

fn text_of(alloc: Global, catalog: &Catalog) -> Result<Text, NoMemory> {
    let pages = Pages::empty(alloc)?;
    let ctx = context(alloc, catalog)?;
    startup_text(alloc, catalog, &pages, &Viewer::Anon, &ctx)
}

/// `c`, which `b` brings, is left out of what `a` needs.
const STARTUP_OF_THREE: &str =
    "mw.loader.addSource({\"local\":\"/load.php\"});\nmw.loader.register([[\"a\",\"96okj\",[1]],[\"b\",\"wn61g\",[2]],[\"c\",\"186z7\"],[\"site\",\"186z7\",[4]],[\"site.styles\",\"186z7\",[],2],[\"user\",\"186z7\",[],0],[\"user.options\",\"\",[],1],[\"user.styles\",\"186z7\",[],0]]);\n";

#[test]
fn startup_of_three(rt: HostRuntime) -> Result<(), Fail> {
    let catalog = Catalog::read(rt.alloc(), THREE.as_bytes())?;
    assert_eq!(rt; needs_of_first(rt.alloc(), &catalog)?, 2);
    assert_eq!(rt; text_of(rt.alloc(), &catalog)?.as_str(), STARTUP_OF_THREE);
    Ok(())
}

/// Groups in the order in which they first appear, a name without a row, a skip, and a private module.
const GROUPS: &str = r#"
[modules.a]
group = "z"
dependencies = ["b", "ext.gadget.zz"]
[modules.b]
group = "a"
[modules.c]
group = "z"
dependencies = ["a"]
[modules.d]
skip = "promise"
[modules.p]
group = "private"
"#;

const STARTUP_OF_GROUPS: &str =
    "mw.loader.addSource({\"local\":\"/load.php\"});\nmw.loader.register([[\"a\",\"186z7\",[1,\"ext.gadget.zz\"],2],[\"b\",\"186z7\",[],3],[\"c\",\"186z7\",[0],2],[\"d\",\"186z7\",[],null,null,\"promise\"],[\"p\",\"\",[],1],[\"site\",\"186z7\",[6]],[\"site.styles\",\"186z7\",[],4],[\"user\",\"186z7\",[],0],[\"user.options\",\"\",[],1],[\"user.styles\",\"186z7\",[],0]]);\n";

#[test]
fn startup_of_groups(rt: HostRuntime) -> Result<(), Fail> {
    let catalog = Catalog::read(rt.alloc(), GROUPS.as_bytes())?;
    assert_eq!(rt; text_of(rt.alloc(), &catalog)?.as_str(), STARTUP_OF_GROUPS);
    Ok(())
}

/// How many modules definitions may have.
const MOST: usize = 3_500;

/// Definitions of the most modules, each of which needs the two behind it.
fn most_modules(alloc: Global) -> Result<String, Fail> {
    let mut text = String::new(alloc);
    for at in 0..MOST {
        let number = at + 1_000;
        text.push_str(format!(in alloc; "[modules.m{number}]\n")?.as_str())?;
        if at + 2 < MOST {
            let first = number + 1;
            let second = number + 2;
            text.push_str(format!(in alloc;
                "dependencies = [\"m{first}\", \"m{second}\"]\n"
            )?.as_str())?;
        }
    }
    Ok(text)
}

/// How many of these rows have one dependency.
fn needing_one(rows: &[Row]) -> usize {
    rows.iter()
        .filter(|row| row.deps.as_slice().len() == 1)
        .count()
}

/// How many rows the startup text of the most modules has, and how many of these have one dependency.
fn rows_of_most(alloc: Global) -> Result<(usize, usize), Fail> {
    let catalog = Catalog::read(alloc, most_modules(alloc)?.as_bytes())?;
    let text = text_of(alloc, &catalog)?;
    let said = read_startup(alloc, text.as_bytes())?;
    let rows = said.rows.as_slice();
    Ok((rows.len(), needing_one(rows)))
}

/// What a module needs beside the one behind it is brought by that one, but for the last that needs two. The built-in modules
/// have rows too, of which `site` needs one.
#[test]
fn startup_of_the_most_modules(rt: HostRuntime) -> Result<(), Fail> {
    let (rows, needing_one) = rows_of_most(rt.alloc())?;
    assert_eq!(rt; rows, 3_505);
    assert_eq!(rt; needing_one, 3_498);
    Ok(())
}
