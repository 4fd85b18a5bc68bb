ghost use Rattle.std.specs.Prelude.{◌≡◌, map, IfOk};
ghost use Rattle.tb_plain.specs.Plain as spec;

use std::alloc::Global;
use std::collections::BTreeSet;
use tb_text::NoMemory;

/// Whether no text occurs twice. It keeps them in a set.
pub fn all_differ(alloc: Global, texts: &[&str]) -> Result<bool, NoMemory>
    ensures { IfOk result (λ b. b ≡ spec.all_differ (map (λ text. text.now) texts.now)) }
{
    let mut seen = BTreeSet::new(alloc);
    for text in texts {
        if !seen.insert(*text)? {
            return Ok(false);
        }
    }
    Ok(true)
}
