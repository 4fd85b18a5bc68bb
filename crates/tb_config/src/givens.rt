//! What the configs of a setting give, of which each comes before those that it overrides.
ghost use Rattle.std.specs.Prelude.{◌≡◌, option_map};
ghost use Rattle.tb_config.specs.Overriding.{member_in, option_in};
ghost use Rattle.tb_config.specs.Givens.{seen_all, seen_given};

use crate::configs::Config;
use serde_json::Value;
use tb_text::Path;

/// A value, and the folder of the config that gives it.
#[derive(Clone, Copy)]
pub struct Given<'c> {
    pub folder: &'c Path,
    pub value: &'c Value,
}

/// The member of this name.
pub fn member_in<'c>(configs: &[&'c Config], name: &str) -> Option<Given<'c>>
    ensures { option_map seen_given result ≡ member_in name.now (seen_all configs.now) }
{
    for config in configs {
        if let Some(value) = config.member(name) {
            return Some(Given {
                folder: &config.folder,
                value,
            });
        }
    }
    None
}

/// The option of this name.
pub fn option_in<'c>(configs: &[&'c Config], name: &str) -> Option<Given<'c>>
    ensures { option_map seen_given result ≡ option_in name.now (seen_all configs.now) }
{
    for config in configs {
        if let Some(value) = config.option(name) {
            return Some(Given {
                folder: &config.folder,
                value,
            });
        }
    }
    None
}
