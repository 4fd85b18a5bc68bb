//! What is wrong in the configs of a setting, and the setting where nothing is.
ghost use Rattle.std.specs.Prelude.{◌≡◌, ◌++◌, [], ◌∷◌, IfOk, IfErr, OnOk, map, codes, option_and_then};
ghost use Rattle.std.specs.List.{flat_map};
ghost use Rattle.tb_config.specs.Configs.{folder_of, member_of};
ghost use Rattle.tb_config.specs.Faults.{config_faults, diag_at, file_diags, followed_faults, in_order};
ghost use Rattle.tb_config.specs.Givens.{seen_all};
ghost use Rattle.tb_config.specs.Seen.{seen};
ghost use Rattle.tb_config.specs.Settings.{Good, IfFaulty, faults_of, folder_faults, judged, own_faults, setting_by};
ghost use Rattle.tb_options.specs.Members.{reference_texts};
ghost use Rattle.tb_options.specs.Options.{fault};

use crate::configs::Config;
use crate::contents::{Content, check_content};
use crate::givens::{member_in, option_in};
use crate::parts::{
    composite_by, configs_read, exclude_by, files_by, include_by, is_solution, output_folder,
    path_rules, references_of, root_by,
};
use crate::{Setting, SettingFault};
use std::alloc::Global;
use std::collections::BTreeSet;
use tb_options::{Fault, TextOf, check_texts, push_fault, push_unless, reference_texts};
use tb_text::{Code, Diag, Finding, List, Name, NoMemory, Path};

/// The setting of the config `own`, or all its faults.
pub fn judge(
    alloc: Global,
    own: &Config,
    configs: &[&Config],
    circles: &[Path],
    chain: u64,
) -> Result<Setting, SettingFault>
    ensures ok { IfOk result (λ s. judged (setting_by chain (seen own.now) (seen_all configs.now)) (faults_of (seen own.now) (seen_all configs.now) circles.now) ≡ Good s) }
    ensures faults { IfErr result (IfFaulty (judged (setting_by chain (seen own.now) (seen_all configs.now)) (faults_of (seen own.now) (seen_all configs.now) circles.now))) }
{
    let diags = faults_of(alloc, own, configs, circles)?;
    match diags.as_slice() {
        [] => Ok(setting_by(alloc, own, configs, chain)?),
        [_, ..] => Err(SettingFault::Faults(in_order(alloc, diags)?)),
    }
}

fn setting_by(
    alloc: Global,
    own: &Config,
    configs: &[&Config],
    chain: u64,
) -> Result<Setting, NoMemory>
    ensures { IfOk result (λ s. s ≡ setting_by chain (seen own.now) (seen_all configs.now)) }
{
    let folder = output_folder(alloc, own, configs)?;
    let files = member_in(configs, "files");
    let include = member_in(configs, "include");
    let exclude = member_in(configs, "exclude");
    Ok(Setting {
        config: own.path.clone()?,
        solution: is_solution(own, configs),
        composite: composite_by(option_in(configs, "composite")),
        root: root_by(alloc, option_in(configs, "rootDir"), &own.folder)?,
        paths: path_rules(alloc, option_in(configs, "paths"))?,
        files: files_by(alloc, files)?,
        include: include_by(alloc, include, files, &own.folder)?,
        exclude: exclude_by(alloc, exclude, &own.folder, &folder)?,
        folder,
        references: references_of(alloc, own)?,
        read: configs_read(alloc, configs)?,
        chain,
    })
}

fn faults_of(
    alloc: Global,
    own: &Config,
    configs: &[&Config],
    circles: &[Path],
) -> Result<Vec<Diag>, NoMemory>
    ensures { IfOk result (λ diags. diags.items ≡ faults_of (seen own.now) (seen_all configs.now) circles.now) }
{
    let faults = own_faults(alloc, own, configs, circles)?;
    let mut diags = file_diags(alloc, configs)?;
    for fault in &faults {
        diags.push(diag_at(alloc, &own.path, fault)?)?;
    }
    Ok(diags)
}

fn own_faults(
    alloc: Global,
    own: &Config,
    configs: &[&Config],
    circles: &[Path],
) -> Result<Vec<Fault>, NoMemory>
    ensures { IfOk result (λ faults. faults.items ≡ own_faults (seen own.now) (seen_all configs.now) circles.now) }
{
    let mut faults = Vec::new(alloc);
    check_configs(alloc, &mut faults, configs)?;
    check_circles(alloc, &mut faults, circles)?;
    check_followed(alloc, &mut faults, own)?;
    check_folder(alloc, &mut faults, own, configs)?;
    Ok(faults)
}

fn check_configs(
    alloc: Global,
    faults: &mut Vec<Fault>,
    configs: &[&Config],
) -> Result<(), NoMemory>
    ensures { OnOk result (faults.new.items ≡ faults.old.items ++ flat_map config_faults (seen_all configs.now)) }
{
    for config in configs {
        check_config(alloc, faults, *config)?;
    }
    Ok(())
}

fn check_config(alloc: Global, faults: &mut Vec<Fault>, config: &Config) -> Result<(), NoMemory>
    ensures { OnOk result (faults.new.items ≡ faults.old.items ++ config_faults (seen config.now)) }
{
    check_content(alloc, faults, &config.folder, &config.content)
}

/// Adds a fault for each config that was met on the way down from itself.
fn check_circles(alloc: Global, faults: &mut Vec<Fault>, circles: &[Path]) -> Result<(), NoMemory>
    ensures { OnOk result (faults.new.items ≡ faults.old.items ++ map (fault 5003) circles.now) }
{
    for circle in circles {
        push_fault(alloc, faults, 5003, circle.as_str())?;
    }
    Ok(())
}

/// Adds what is wrong in what the config's references name.
fn check_followed(alloc: Global, faults: &mut Vec<Fault>, own: &Config) -> Result<(), NoMemory>
    ensures { OnOk result (faults.new.items ≡ faults.old.items ++ followed_faults (folder_of own.now.path) (option_and_then reference_texts (member_of (codes "references") (seen own.now)))) }
{
    let Some(value) = own.member("references") else {
        return Ok(());
    };
    match reference_texts(alloc, value)? {
        Some(texts) => check_texts(
            alloc,
            faults,
            TextOf::Reference,
            &own.folder,
            texts.as_slice(),
        ),
        None => Ok(()),
    }
}

/// Adds a fault where a project has no output folder.
fn check_folder(
    alloc: Global,
    faults: &mut Vec<Fault>,
    own: &Config,
    configs: &[&Config],
) -> Result<(), NoMemory>
    ensures { OnOk result (faults.new.items ≡ faults.old.items ++ folder_faults (seen own.now) (seen_all configs.now)) }
{
    let good = is_solution(own, configs) || option_in(configs, "outDir").is_some();
    push_unless(alloc, faults, good, 5007, "outDir")
}

/// The faults of the configs that are missing or unreadable.
fn file_diags(alloc: Global, configs: &[&Config]) -> Result<Vec<Diag>, NoMemory>
    ensures { IfOk result (λ diags. diags.items ≡ flat_map file_diags (seen_all configs.now)) }
{
    let mut diags = Vec::new(alloc);
    for config in configs {
        check_file(alloc, &mut diags, *config)?;
    }
    Ok(diags)
}

pub fn check_file(alloc: Global, diags: &mut Vec<Diag>, config: &Config) -> Result<(), NoMemory>
    ensures { OnOk result (diags.new.items ≡ diags.old.items ++ file_diags (seen config.now)) }
{
    match &config.content {
        Content::Missing => push_diag(alloc, diags, &config.path, 5002),
        Content::Unreadable => push_diag(alloc, diags, &config.path, 5001),
        Content::Object(_) => Ok(()),
    }
}

fn push_diag(alloc: Global, diags: &mut Vec<Diag>, path: &Path, number: u16) -> Result<(), NoMemory>
    ensures { OnOk result (diags.new.items ≡ diags.old.items ++ diag_at path.now (fault number []) ∷ []) }
{
    let fault = Fault {
        number,
        first: Name::copy_of(alloc, "")?,
    };
    diags.push(diag_at(alloc, path, &fault)?)?;
    Ok(())
}

fn diag_at(alloc: Global, path: &Path, fault: &Fault) -> Result<Diag, NoMemory>
    ensures { IfOk result (λ diag. diag ≡ diag_at path.now fault.now) }
{
    let finding = Finding {
        offset: 0,
        code: Code {
            own: true,
            number: fault.number,
        },
        first: fault.first.clone()?,
        second: Name::copy_of(alloc, "")?,
    };
    Ok(Diag {
        project: 0,
        path: path.clone()?,
        finding,
    })
}

/// In the order of diagnostics, each once.
fn in_order(alloc: Global, diags: Vec<Diag>) -> Result<List<Diag>, NoMemory>
    ensures { IfOk result (λ ordered. ordered ≡ in_order diags.items) }
{
    let mut found = BTreeSet::new(alloc);
    for diag in diags {
        found.insert(diag)?;
    }
    listed(alloc, found)
}

fn listed(alloc: Global, diags: BTreeSet<Diag>) -> Result<List<Diag>, NoMemory>
    ensures { IfOk result (λ listed. listed ≡ diags.keys) }
{
    let mut listed = Vec::new(alloc);
    for diag in diags {
        listed.push(diag)?;
    }
    Ok(List::from_vec(listed))
}
