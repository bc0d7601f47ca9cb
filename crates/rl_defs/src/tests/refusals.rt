//! What each refused file is told.
use super::{compare, compare_all};
use crate::Catalog;
use rl_names::Rule;
use std::test::Fail;

const NO_TOML: [&[u8]; 8] = [
    b"[",
    b"x",
    b"\xff",
    b"[files]\na = \"\xc3\"",
    b"\xef\xbb",
    b"[files]\na = \"\"\na = \"\"",
    b"[modules.a]\n[modules.a]",
    b"[modules.a]\nskip = \"a",
];

#[test]
fn no_toml(rt: HostRuntime) -> Result<(), Fail> {
    for file in &NO_TOML {
        compare(&rt, rt.alloc(), file, "the file is not TOML")?;
    }
    Ok(())
}

const UNKNOWN_FIELDS: [(&str, &str); 20] = [
    ("x = 1", "unknown or bad field `x` (module ``)"),
    (
        "[languages.de]",
        "unknown or bad field `languages` (module ``)",
    ),
    ("files = 1", "unknown or bad field `files` (module ``)"),
    ("modules = []", "unknown or bad field `modules` (module ``)"),
    ("[[wiki]]", "unknown or bad field `wiki` (module ``)"),
    (
        "[files]\n\"a.js\" = 1",
        "unknown or bad field `a.js` (module ``)",
    ),
    (
        "[wiki]\ncolour = 1",
        "unknown or bad field `colour` (module ``)",
    ),
    (
        "[wiki]\nadmins = \"Root\"",
        "unknown or bad field `admins` (module ``)",
    ),
    (
        "[wiki]\nskins = [\"a\", 1]",
        "unknown or bad field `skins` (module ``)",
    ),
    (
        "[wiki]\nlimit = 2000.0",
        "unknown or bad field `limit` (module ``)",
    ),
    (
        "[wiki]\nstoreVersion = true",
        "unknown or bad field `storeVersion` (module ``)",
    ),
    ("modules.a = 3", "unknown or bad field `` (module `a`)"),
    (
        "[modules.a]\nx = 1",
        "unknown or bad field `x` (module `a`)",
    ),
    ("[modules.a.b]", "unknown or bad field `b` (module `a`)"),
    (
        "[modules.a]\nscripts = \"a.js\"",
        "unknown or bad field `scripts` (module `a`)",
    ),
    (
        "[modules.a]\ndependencies = [[]]",
        "unknown or bad field `dependencies` (module `a`)",
    ),
    (
        "[modules.a]\ngroup = 1",
        "unknown or bad field `group` (module `a`)",
    ),
    (
        "[modules.a]\nsource = []",
        "unknown or bad field `source` (module `a`)",
    ),
    (
        "[modules.a]\nskip = true",
        "unknown or bad field `skip` (module `a`)",
    ),
    (
        "[modules.a]\nstyles = []",
        "unknown or bad field `styles` (module `a`)",
    ),
];

const NUMBERS: [(&str, &str); 9] = [
    (
        "[wiki]\nlimit = 199",
        "unknown or bad field `limit` (module ``)",
    ),
    ("[wiki]\nlimit = 200", "taken"),
    ("[wiki]\nlimit = 4000", "taken"),
    (
        "[wiki]\nlimit = 4001",
        "unknown or bad field `limit` (module ``)",
    ),
    (
        "[wiki]\nlimit = 4294967496",
        "unknown or bad field `limit` (module ``)",
    ),
    (
        "[wiki]\nstoreVersion = -1",
        "unknown or bad field `storeVersion` (module ``)",
    ),
    ("[wiki]\nstoreVersion = 0", "taken"),
    ("[wiki]\nstoreVersion = 1000000", "taken"),
    (
        "[wiki]\nstoreVersion = 1000001",
        "unknown or bad field `storeVersion` (module ``)",
    ),
];

const BAD_NAMES: [(&str, &str); 21] = [
    ("[modules.startup]", "bad name `startup`"),
    ("[modules.site]", "bad name `site`"),
    ("[modules.\"site.styles\"]", "bad name `site.styles`"),
    ("[modules.user]", "bad name `user`"),
    ("[modules.\"user.styles\"]", "bad name `user.styles`"),
    ("[modules.\"user.options\"]", "bad name `user.options`"),
    ("[modules.\"ext.gadget.\"]", "bad name `ext.gadget.`"),
    ("[modules.\"\"]", "bad name ``"),
    ("[modules.\"a,b\"]", "bad name `a,b`"),
    ("[modules.\".a\"]", "bad name `.a`"),
    ("[modules.\"\u{e9}\"]", "bad name `\u{e9}`"),
    ("[modules.\"ext.gadget\"]\n[modules.sites]", "taken"),
    ("[wiki]\nadmins = [\"Ann\", \"Ann/x\"]", "bad name `Ann/x`"),
    ("[wiki]\nadmins = [\"\"]", "bad name ``"),
    ("[wiki]\nadmins = [\"_ _\"]", "bad name `_ _`"),
    ("[wiki]\nadmins = [\"a|b\"]", "bad name `a|b`"),
    ("[wiki]\nskins = [\"Vector\"]", "bad name `Vector`"),
    ("[wiki]\nskins = [\"\"]", "bad name ``"),
    ("[wiki]\nskins = [\"default\"]", "bad name `default`"),
    ("[wiki]\nskins = [\"fallback\"]", "bad name `fallback`"),
    ("[wiki]\nskins = [\"vector-2022\"]", "taken"),
];

const WHAT_MODULES_NAME: [(&str, &str); 11] = [
    (
        "[modules.a]\ndependencies = [\"zz\"]",
        "module `a` depends on `zz`, which is no module",
    ),
    (
        "[modules.a]\ndependencies = [\"startup\"]",
        "module `a` depends on `startup`, which is no module",
    ),
    (
        "[modules.a]\ndependencies = [\"\"]",
        "module `a` depends on ``, which is no module",
    ),
    (
        "[modules.a]\ndependencies = [\"ext.gadget.a b\"]",
        "module `a` depends on `ext.gadget.a b`, which is no module",
    ),
    (
        "[modules.a]\ndependencies = [\"a\", \"site\", \"site.styles\", \"user\"]",
        "taken",
    ),
    (
        "[modules.a]\ndependencies = [\"user.styles\", \"user.options\", \"ext.gadget.\"]",
        "taken",
    ),
    (
        "[modules.a]\nscripts = [\"q.js\"]",
        "module `a` lists the file `q.js`, which is not there",
    ),
    (
        "[files]\na = \"\"\n[modules.a]\nscripts = [\"a\", \"A\"]",
        "module `a` lists the file `A`, which is not there",
    ),
    (
        "[modules.a]\nsource = \"other\"",
        "module `a` has an unknown source",
    ),
    (
        "[modules.a]\nsource = \"\"",
        "module `a` has an unknown source",
    ),
    (
        "[modules.a]\nsource = \"local\"\ngroup = \"private\"",
        "taken",
    ),
];

#[test]
fn refusals(rt: HostRuntime) -> Result<(), Fail> {
    compare_all(&rt, rt.alloc(), &UNKNOWN_FIELDS)?;
    compare_all(&rt, rt.alloc(), &NUMBERS)?;
    compare_all(&rt, rt.alloc(), &BAD_NAMES)?;
    compare_all(&rt, rt.alloc(), &WHAT_MODULES_NAME)
}

/// Files, each with the number of the rule that it breaks.
const RULES: [(&str, u32); 7] = [
    ("[", 11),
    ("x = 1", 12),
    ("[modules.startup]", 13),
    ("[modules.a]\ndependencies = [\"q\"]", 14),
    ("[modules.a]\nscripts = [\"q\"]", 15),
    ("[modules.a]\nsource = \"q\"", 18),
    ("", 0),
];

#[test]
fn rules(rt: HostRuntime) -> Result<(), Fail> {
    for (file, number) in &RULES {
        let rule = match Catalog::read(rt.alloc(), file.as_bytes()) {
            Ok(_) => None,
            Err(error) => error.rule(),
        };
        assert_eq!(rt; rule, Rule::of(*number));
    }
    Ok(())
}
