ghost use Rattle.std.specs.Prelude.{◌≡◌, ◌<◌, length, Some, All, IfOk, IfErr, map};
ghost use Rattle.std.specs.BTreeMap.{get};
ghost use Rattle.tb_config.specs.Configs.{Tree, config_at};
ghost use Rattle.tb_config.specs.Faults.{file_diags};
ghost use Rattle.tb_config.specs.Givens.{first, seen_all};
ghost use Rattle.tb_config.specs.Seen.{AreRead, IsKept, seen};
ghost use Rattle.tb_config.specs.Settings.{setting_of, setting_from, Good, IfFaulty};
ghost use Rattle.tb_text.specs.Bytes.{bytes_cmp};

use crate::chains::longest;
use crate::configs::Config;
use crate::contents::Content;
use crate::judging::{check_file, judge};
use crate::walks::{Order, walk_from};
use crate::{Setting, SettingFault};
use std::alloc::Global;
use std::collections::BTreeMap;
use tb_text::{Diag, List, NoMemory, Path, Texts};

/// The setting of the config at a path, or all its faults. Bases are read from the same tree, each once.
pub fn read_setting(alloc: Global, tree: &Texts, path: &Path) -> Result<Setting, SettingFault>
    ensures ok { IfOk result (λ s. setting_of tree.now path.now ≡ Good s) }
    ensures faults { IfErr result (IfFaulty (setting_of tree.now path.now)) }
{
    let mut configs = BTreeMap::new(alloc);
    let circles = walk_from(alloc, tree, &mut configs, Order::AsWritten, path)?.circles;
    let order = walk_from(alloc, tree, &mut configs, Order::LastFirst, path)?.entered;
    let chain = longest(alloc, tree, &mut configs, order.len(), path)?;
    let overriding = configs_at(alloc, &configs, order.as_slice())?;
    let found = overriding.as_slice();
    let own = first(found);
    setting_from(alloc, own, found, circles.as_slice(), chain)
}

fn first<'c>(configs: &[&'c Config]) -> &'c Config
    requires { 0 < length configs.now }
    ensures { first configs.now ≡ Some result }
{
    match configs {
        [config, ..] => *config,
        [] => unreachable!(),
    }
}

/// The setting of the config `own`, which stands alone where there is none to be read.
fn setting_from(
    alloc: Global,
    own: &Config,
    configs: &[&Config],
    circles: &[Path],
    chain: u64,
) -> Result<Setting, SettingFault>
    ensures ok { IfOk result (λ s. setting_from chain (seen own.now) (seen_all configs.now) circles.now ≡ Good s) }
    ensures faults { IfErr result (IfFaulty (setting_from chain (seen own.now) (seen_all configs.now) circles.now)) }
{
    match &own.content {
        Content::Object(_) => judge(alloc, own, configs, circles, chain),
        _ => Err(SettingFault::Faults(file_fault(alloc, own)?)),
    }
}

fn file_fault(alloc: Global, own: &Config) -> Result<List<Diag>, NoMemory>
    ensures { IfOk result (λ diags. diags ≡ file_diags (seen own.now)) }
{
    let mut diags = Vec::new(alloc);
    check_file(alloc, &mut diags, own)?;
    Ok(List::from_vec(diags))
}

/// The configs that are kept at these paths.
fn configs_at<'c>(
    alloc: Global,
    configs: &'c BTreeMap<Path, Config>,
    paths: &[Path],
) -> Result<Vec<&'c Config>, NoMemory>
    requires { All (IsKept configs.now) paths.now }
    ensures { IfOk result (λ found. (tree : Tree) → AreRead tree configs.now → seen_all found.items ≡ map (config_at tree) paths.now) }
{
    let mut found = Vec::new(alloc);
    for path in paths {
        found.push(kept_at(configs, path))?;
    }
    Ok(found)
}

fn kept_at<'c>(configs: &'c BTreeMap<Path, Config>, path: &Path) -> &'c Config
    requires { IsKept configs.now path.now }
    ensures { get bytes_cmp configs.now path.now ≡ Some result.now }
{
    match configs.get(path) {
        Some(config) => config,
        None => unreachable!(),
    }
}
