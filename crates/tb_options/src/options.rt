//! The options of a config, and what is accepted for each.
ghost use Rattle.std.specs.Prelude.{◌≡◌, ◌==◌, ◌++◌, map, count_by, OnOk};
ghost use Rattle.std.specs.List.{list_any};
ghost use Rattle.std.specs.Option.{option_copied};
ghost use Rattle.std.specs.Str.{bytes_eq, str_eq_ignore_ascii_case};
ghost use Rattle.serde_json.specs.View.{view, members_view};
ghost use Rattle.tb_options.specs.Lists.{list_of};
ghost use Rattle.tb_options.specs.Members.{path_lists};
ghost use Rattle.tb_options.specs.Options.{rule_in, rule_of, accepts, is_one_of, options_faults, ruled_faults, value_faults, text_faults, lists_faults, list_faults, target_faults, star_faults};
ghost use Rattle.tb_text.specs.Walks.{texts};

use crate::faults::{Fault, check_texts, push_fault, push_unless};
use crate::members::{PathList, path_lists};
use crate::texts::TextOf;
use serde_json::{Map, Value};
use std::alloc::Global;
use tb_text::{NoMemory, Path};

/// The values that are accepted for an option.
#[derive(Clone, Copy, Debug)]
pub enum Rule {
    True,
    False,
    TrueOrFalse,
    /// One of `MODULES`, in any case.
    Module,
    /// One of `RESOLUTIONS`, in any case.
    Resolution,
    /// One of `TARGETS`, in any case.
    Target,
    /// A text that gives a path.
    PathText,
    /// An object of lists of texts, with at most one `*` in each key and text.
    PathLists,
    /// Any value. It has no effect.
    Ignored,
}

/// All options. One that is not here is refused.
pub const OPTIONS: [(&'static [&'static str], Rule); 9] = [
    (
        &[
            "strict",
            "noImplicitAny",
            "strictNullChecks",
            "strictFunctionTypes",
            "strictBindCallApply",
            "strictPropertyInitialization",
            "noImplicitThis",
            "useUnknownInCatchVariables",
            "alwaysStrict",
            "isolatedDeclarations",
            "isolatedModules",
            "verbatimModuleSyntax",
            "declaration",
            "incremental",
        ],
        Rule::True,
    ),
    (
        &[
            "noEmitOnError",
            "noEmit",
            "emitDeclarationOnly",
            "allowJs",
            "checkJs",
            "noUncheckedIndexedAccess",
            "exactOptionalPropertyTypes",
        ],
        Rule::False,
    ),
    (&["composite"], Rule::TrueOrFalse),
    (&["module"], Rule::Module),
    (&["moduleResolution"], Rule::Resolution),
    (&["target"], Rule::Target),
    (&["outDir", "rootDir"], Rule::PathText),
    (&["paths"], Rule::PathLists),
    (
        &[
            "skipLibCheck",
            "skipDefaultLibCheck",
            "esModuleInterop",
            "allowSyntheticDefaultImports",
            "lib",
            "types",
            "sourceMap",
            "inlineSources",
            "declarationMap",
            "forceConsistentCasingInFileNames",
            "resolveJsonModule",
            "moduleDetection",
            "jsx",
            "noUnusedLocals",
            "noUnusedParameters",
            "noImplicitReturns",
            "noImplicitOverride",
            "noFallthroughCasesInSwitch",
            "allowUnreachableCode",
            "allowUnusedLabels",
            "removeComments",
            "importHelpers",
            "newLine",
            "useDefineForClassFields",
            "noErrorTruncation",
            "pretty",
            "listFiles",
        ],
        Rule::Ignored,
    ),
];

pub const MODULES: [&'static str; 6] = ["es6", "es2015", "es2020", "es2022", "esnext", "preserve"];

pub const RESOLUTIONS: [&'static str; 1] = ["bundler"];

pub const TARGETS: [&'static str; 6] = ["es2020", "es2021", "es2022", "es2023", "es2024", "esnext"];

/// What is accepted for the option of this name; none where it is refused.
pub fn rule_of(name: &str) -> Option<Rule>
    ensures { result ≡ rule_of name.now }
{
    rule_in(&OPTIONS, name)
}

fn rule_in(rows: &[(&'static [&'static str], Rule)], name: &str) -> Option<Rule>
    ensures { result ≡ rule_in (map (λ row. (map (λ option. option.now) row.0.now, row.1)) rows.now) name.now }
{
    for (options, rule) in rows {
        if lists(*options, name) {
            return Some(*rule);
        }
    }
    None
}

fn lists(options: &[&'static str], name: &str) -> bool
    ensures { result ≡ list_any (bytes_eq name.now) (map (λ option. option.now) options.now) }
{
    for option in options {
        if name == *option {
            return true;
        }
    }
    false
}

/// Whether a value is one of those that are accepted. What is inside a text or a list of paths is not looked at.
fn accepts(rule: Rule, value: &Value) -> bool
    ensures { result ≡ accepts rule (view value.now) }
{
    match rule {
        Rule::True => value.as_bool() == Some(true),
        Rule::False => value.as_bool() == Some(false),
        Rule::TrueOrFalse => value.is_boolean(),
        Rule::Module => is_one_of(&MODULES, value.as_str()),
        Rule::Resolution => is_one_of(&RESOLUTIONS, value.as_str()),
        Rule::Target => is_one_of(&TARGETS, value.as_str()),
        Rule::PathText | Rule::PathLists | Rule::Ignored => true,
    }
}

fn is_one_of(accepted: &[&'static str], text: Option<&str>) -> bool
    ensures { result ≡ is_one_of (texts accepted.now) (option_copied text.entry) }
{
    let Some(text) = text else {
        return false;
    };
    for value in accepted {
        if is_same(text, *value) {
            return true;
        }
    }
    false
}

/// Whether two texts differ in the case of ASCII letters at most.
fn is_same(a: &str, b: &str) -> bool
    ensures { result ≡ str_eq_ignore_ascii_case a.now b.now }
{
    a.eq_ignore_ascii_case(b)
}

/// Adds what is wrong in the options of a config in this folder.
pub fn check_options(
    alloc: Global,
    faults: &mut Vec<Fault>,
    folder: &Path,
    options: &Map<String, Value>,
) -> Result<(), NoMemory>
    ensures { OnOk result (faults.new.items ≡ faults.old.items ++ options_faults folder.now (members_view options.now.entries)) }
{
    for (name, value) in options {
        check_option(alloc, faults, folder, name.as_str(), value)?;
    }
    Ok(())
}

fn check_option(
    alloc: Global,
    faults: &mut Vec<Fault>,
    folder: &Path,
    name: &str,
    value: &Value,
) -> Result<(), NoMemory>
    ensures { OnOk result (faults.new.items ≡ faults.old.items ++ ruled_faults (rule_of name.now) folder.now name.now (view value.now)) }
{
    match rule_of(name) {
        Some(rule) => check_value(alloc, faults, rule, folder, name, value),
        None => push_fault(alloc, faults, 5005, name),
    }
}

fn check_value(
    alloc: Global,
    faults: &mut Vec<Fault>,
    rule: Rule,
    folder: &Path,
    name: &str,
    value: &Value,
) -> Result<(), NoMemory>
    ensures { OnOk result (faults.new.items ≡ faults.old.items ++ value_faults rule folder.now name.now (view value.now)) }
{
    match rule {
        Rule::PathText => check_text(alloc, faults, folder, name, value.as_str()),
        Rule::PathLists => check_lists(alloc, faults, folder, name, value),
        _ => push_unless(alloc, faults, accepts(rule, value), 5006, name),
    }
}

fn check_text(
    alloc: Global,
    faults: &mut Vec<Fault>,
    folder: &Path,
    name: &str,
    text: Option<&str>,
) -> Result<(), NoMemory>
    ensures { OnOk result (faults.new.items ≡ faults.old.items ++ text_faults folder.now name.now (option_copied text.entry)) }
{
    match text {
        Some(text) => check_texts(alloc, faults, TextOf::Path, folder, [text].as_slice()),
        None => push_fault(alloc, faults, 5006, name),
    }
}

fn check_lists(
    alloc: Global,
    faults: &mut Vec<Fault>,
    folder: &Path,
    name: &str,
    value: &Value,
) -> Result<(), NoMemory>
    ensures { OnOk result (faults.new.items ≡ faults.old.items ++ lists_faults folder.now name.now (path_lists (view value.now))) }
{
    let Some(lists) = path_lists(alloc, value)? else {
        return push_fault(alloc, faults, 5006, name);
    };
    for list in &lists {
        check_list(alloc, faults, folder, name, list)?;
    }
    Ok(())
}

fn check_list(
    alloc: Global,
    faults: &mut Vec<Fault>,
    folder: &Path,
    name: &str,
    list: &PathList,
) -> Result<(), NoMemory>
    ensures { OnOk result (faults.new.items ≡ faults.old.items ++ list_faults folder.now name.now (list_of list.now)) }
{
    check_stars(alloc, faults, name, list.key)?;
    for target in &list.texts {
        check_target(alloc, faults, folder, name, *target)?;
    }
    Ok(())
}

fn check_target(
    alloc: Global,
    faults: &mut Vec<Fault>,
    folder: &Path,
    name: &str,
    target: &str,
) -> Result<(), NoMemory>
    ensures { OnOk result (faults.new.items ≡ faults.old.items ++ target_faults folder.now name.now target.now) }
{
    if TextOf::Path.path(alloc, folder, target)?.is_none() {
        return push_fault(alloc, faults, 5014, target);
    }
    check_stars(alloc, faults, name, target)
}

fn check_stars(
    alloc: Global,
    faults: &mut Vec<Fault>,
    name: &str,
    text: &str,
) -> Result<(), NoMemory>
    ensures { OnOk result (faults.new.items ≡ faults.old.items ++ star_faults name.now text.now) }
{
    push_unless(alloc, faults, stars_in(text.as_bytes()) < 2, 5006, name)
}

fn stars_in(text: &[u8]) -> usize
    ensures { result ≡ count_by (λ b. b == 42) text.now }
{
    text.iter().filter(|b| **b == b'*').count()
}
