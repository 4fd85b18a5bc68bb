//! Tests of `tb_globs`.

use std::alloc::Global;
use std::test::Fail;
use tb_globs::{Pattern, UseOf, matches};
use tb_text::{Path, PathFault};

/// The folder of the config, the pattern's text, a path, and whether the pattern matches it.
type Case = (&'static str, &'static str, &'static str, bool);

const INCLUDED: [Case; 39] = [
    ("", "src", "src/a/b.ts", true),
    ("", "src/*.ts", "src/a/b.ts", false),
    ("", "src/*.ts", "src/b.ts", true),
    ("", "**/*", ".x/a.ts", false),
    ("", "**/*", "a.ts", true),
    ("", "**/*", "x/.a.ts", false),
    ("", "*.ts", ".ts", true),
    ("", "*.ts", ".a.ts", false),
    ("", "?.ts", "..ts", false),
    ("", "?.ts", "a.ts", true),
    ("", "?.ts", ".ts", false),
    ("", "?.ts", "ab.ts", false),
    ("", "?.ts", "é.ts", true),
    ("", "a**.ts", "a.b.ts", true),
    ("", "**.ts", "a/b.ts", false),
    ("", "**/a.ts", "a.ts", true),
    ("", "**/a.ts", "x/y/a.ts", true),
    ("", "**/a.ts", "x/.y/a.ts", false),
    ("", "**/*.b/.*/**/c.ts", "x.b/.b/.c/c.ts", true),
    ("", "**/*.ts", "node_modules/a.ts", false),
    ("", "node_modules/*.ts", "node_modules/a.ts", true),
    ("", "x/node_*/a.ts", "x/node_modules/a.ts", false),
    ("", "**/*.ts", "x/bower_components/y/a.ts", false),
    ("", "jspm_packages", "jspm_packages/a.ts", true),
    ("", "src/**", "src/a.ts", true),
    ("", "src/**", "src/x/.a.ts", false),
    ("", "a*b*c.ts", "abbc.ts", true),
    ("", "a*b*c.ts", "acb.ts", false),
    ("", "*a*a*a*a*b.ts", "aaaaaaaaaaaaaaaaaaaaaaaa.ts", false),
    ("", "**/**/**/**/b.ts", "a/a/a/a/a/a/a/a/a/a/a.ts", false),
    ("a", ".", "a/b/c.ts", true),
    ("a", ".", "b/c.ts", false),
    ("a/b", "..", "a/c.ts", true),
    ("my.app", "../my.app", "my.app/a.ts", true),
    ("a*", "b.ts", "ab/b.ts", false),
    ("a*", "b.ts", "a*/b.ts", true),
    ("a/b", "../*/c.ts", "a/x/c.ts", true),
    ("", "**/../a.ts", "a.ts", true),
    ("", "src/a.ts", "src/a.ts/b.ts", false),
];

const EXCLUDED: [Case; 9] = [
    ("", "dist", "dist/a.ts", true),
    ("", "dist", "dist", false),
    ("", "*.d", "x.d/a/b.ts", true),
    ("", "src/*", "src/a/b.ts", true),
    ("", "src/*.ts", "src/a/b.ts", false),
    ("", "**/.x", ".x/a.ts", true),
    ("", "?x", ".x/a.ts", true),
    ("", "**/*", "node_modules/a.ts", true),
    ("a", "../b/*", "a/b/c.ts", false),
];

/// The folder of the config, the pattern's text, and what stands in front of its first wildcard.
const FOLDERS: [(&'static str, &'static str, &'static str); 11] = [
    ("", "src", "src"),
    ("", "**/*", ""),
    ("a", "**/*", "a"),
    ("a", "src/x/*.ts", "a/src/x"),
    ("a", "src/x?/y/*.ts", "a/src"),
    ("a", "src/m.ts", "a/src/m.ts"),
    ("a", ".", "a"),
    ("a/b", "..", "a"),
    ("a/b", "../c", "a/c"),
    ("a/b", "../*/c.ts", "a"),
    ("a*", "b/*.ts", "a*/b"),
];

fn answer(alloc: Global, case: &Case, use_of: UseOf) -> Result<bool, PathFault> {
    let base = Path::read(alloc, case.0)?;
    let pattern = Pattern::read(alloc, &base, case.1)?;
    let path = Path::read(alloc, case.2)?;
    Ok(matches(&pattern, use_of, &path))
}

#[test]
fn patterns_of_include_match(rt: HostRuntime) -> Result<(), Fail> {
    for case in &INCLUDED {
        assert_eq!(rt;
            answer(rt.alloc(), case, UseOf::Include)?,
            case.3,
            "{} {}",
            case.1,
            case.2
        );
    }
    Ok(())
}

#[test]
fn patterns_of_exclude_match(rt: HostRuntime) -> Result<(), Fail> {
    for case in &EXCLUDED {
        assert_eq!(rt;
            answer(rt.alloc(), case, UseOf::Exclude)?,
            case.3,
            "{} {}",
            case.1,
            case.2
        );
    }
    Ok(())
}

#[test]
fn folders_stand_in_front_of_wildcards(rt: HostRuntime) -> Result<(), Fail> {
    for (base, text, folder) in FOLDERS {
        let base = Path::read(rt.alloc(), base)?;
        let pattern = Pattern::read(rt.alloc(), &base, text)?;
        assert_eq!(rt; pattern.folder().as_str(), folder, "{text}");
    }
    Ok(())
}

#[test]
fn texts_that_leave_the_root_are_no_patterns(rt: HostRuntime) -> Result<(), Fail> {
    let base = Path::read(rt.alloc(), "a")?;
    for text in ["../../b", "b/", "b//c", "b\\c"] {
        let read = Pattern::read(rt.alloc(), &base, text);
        assert!(rt; matches!(&read, Err(PathFault::BadPath)), "{text}");
    }
    Ok(())
}

#[test]
fn a_copy_equals_its_pattern(rt: HostRuntime) -> Result<(), Fail> {
    let base = Path::read(rt.alloc(), "a")?;
    let pattern = Pattern::read(rt.alloc(), &base, "b//../*.ts")?;
    let other = Pattern::read(rt.alloc(), &base, "*.ts")?;
    assert!(rt; pattern.clone()? == pattern);
    assert!(rt; pattern != other);
    Ok(())
}
