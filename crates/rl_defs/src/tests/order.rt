//! The first of several breaches.
use super::compare_all;
use std::test::Fail;

/// Files that break one rule twice.
const IN_ONE_CHECK: [(&str, &str); 14] = [
    (
        "[modules.b]\nx = 1\n[modules.a]\ny = 1",
        "unknown or bad field `y` (module `a`)",
    ),
    (
        "[modules.a]\nx = 1\n[modules.B]\ny = 1",
        "unknown or bad field `y` (module `B`)",
    ),
    (
        "[modules.a]\nscripts = 1\ndependencies = 1",
        "unknown or bad field `dependencies` (module `a`)",
    ),
    (
        "[wiki]\nx = 1\n[modules.a]\ny = 1\n[files]\nz = 1",
        "unknown or bad field `z` (module ``)",
    ),
    (
        "[modules.a]\nx = 1\n[languages.de]",
        "unknown or bad field `languages` (module ``)",
    ),
    (
        "[zoo]\n[wiki]\nx = 1",
        "unknown or bad field `x` (module ``)",
    ),
    ("[modules.user]\n[modules.site]", "bad name `site`"),
    ("[wiki]\nadmins = [\"\"]\n[modules.user]", "bad name `user`"),
    (
        "[wiki]\nskins = [\"B\"]\nadmins = [\"a|b\"]",
        "bad name `a|b`",
    ),
    ("[wiki]\nskins = [\"B\", \"A\"]", "bad name `B`"),
    ("[wiki]\nadmins = [\"b|\", \"a|\"]", "bad name `b|`"),
    (
        "[modules.b]\ndependencies = [\"y\"]\n[modules.a]\ndependencies = [\"z\", \"x\"]",
        "module `a` depends on `z`, which is no module",
    ),
    (
        "[modules.b]\nscripts = [\"y\"]\n[modules.a]\nscripts = [\"z\", \"x\"]",
        "module `a` lists the file `z`, which is not there",
    ),
    (
        "[modules.b]\nsource = \"y\"\n[modules.a]\nsource = \"z\"",
        "module `a` has an unknown source",
    ),
];

/// Files that break two rules.
const ACROSS_CHECKS: [(&str, &str); 7] = [
    ("[modules.a]\nx = 1\n[", "the file is not TOML"),
    (
        "[modules.user]\n[wiki]\nx = 1",
        "unknown or bad field `x` (module ``)",
    ),
    (
        "[modules.a]\ndependencies = [\"zz\"]\n[modules.user]",
        "bad name `user`",
    ),
    (
        "[modules.a]\ndependencies = [\"zz\"]\n[wiki]\nadmins = [\"a/b\"]",
        "bad name `a/b`",
    ),
    (
        "[modules.a]\nscripts = [\"q\"]\n[modules.b]\ndependencies = [\"zz\"]",
        "module `b` depends on `zz`, which is no module",
    ),
    (
        "[modules.a]\nsource = \"x\"\n[modules.b]\nscripts = [\"q\"]",
        "module `b` lists the file `q`, which is not there",
    ),
    (
        "[modules.a]\nsource = \"x\"\nscripts = [\"q\"]\ndependencies = [\"zz\"]",
        "module `a` depends on `zz`, which is no module",
    ),
];

#[test]
fn the_first_breach(rt: HostRuntime) -> Result<(), Fail> {
    compare_all(&rt, rt.alloc(), &IN_ONE_CHECK)?;
    compare_all(&rt, rt.alloc(), &ACROSS_CHECKS)
}
