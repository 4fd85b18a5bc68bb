//! Depths as numbers that stay at their last value.

ghost use Rattle.std.specs.Prelude.{◌≡◌, ◌+◌, max};
ghost use Rattle.tb_tree.specs.Depth as spec;

pub(crate) fn larger(a: u32, b: u32) -> u32
    ensures { result ≡ max a b }
{
    if a < b { b } else { a }
}

/// One more, or the last value.
pub(crate) fn deeper(depth: u32) -> u32
    ensures { result ≡ spec.capped (depth + 1) }
{
    depth.saturating_add(1)
}
