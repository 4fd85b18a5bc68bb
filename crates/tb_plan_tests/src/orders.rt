//! Tests of `tb_graph`.

ghost use Rattle.std.specs.Prelude.{◌≡◌, ◌<◌, length, All, IfOk};
ghost use Rattle.tb_graph.specs.Graphs.{AreNodes};

use std::alloc::Global;
use std::test::Fail;
use tb_graph::{OrderFault, order};
use tb_text::List;

/// The numbers of digits, taken below `count`.
fn digits(alloc: Global, text: &str, count: usize) -> Result<List<usize>, OrderFault>
    requires { 0 < count }
    ensures { IfOk result (All (λ node. node < count)) }
{
    let mut numbers = Vec::new(alloc);
    for digit in text.as_bytes() {
        numbers.push(usize::from(digit.wrapping_sub(b'0')) % count)?;
    }
    Ok(List::from_vec(numbers))
}

/// The references of the nodes `0, 1, ..`, each node's as digits.
fn refs_of(alloc: Global, nodes: &[&str]) -> Result<Vec<List<usize>>, OrderFault>
    requires { 0 < length nodes.now }
    ensures { IfOk result (λ v. (length v.items ≡ length nodes.now) × All (AreNodes v.items) v.items) }
{
    let mut refs = Vec::new(alloc);
    for node in nodes {
        refs.push(digits(alloc, node, nodes.len())?)?;
    }
    Ok(refs)
}

/// Each node references the next.
fn chain(alloc: Global, count: usize) -> Result<Vec<List<usize>>, OrderFault>
    requires { 0 < count }
    ensures { IfOk result (λ v. (length v.items ≡ count) × All (AreNodes v.items) v.items) }
{
    let mut refs = Vec::new(alloc);
    for at in 0..count {
        let mut next = Vec::new(alloc);
        if at + 1 < count {
            next.push(at + 1)?;
        }
        refs.push(List::from_vec(next))?;
    }
    Ok(refs)
}

/// Whether the answer is a cycle, and its nodes.
fn answer_of(
    alloc: Global,
    roots: &str,
    nodes: &[&str],
) -> Result<(bool, List<usize>), OrderFault> {
    if nodes.is_empty() {
        return Ok((false, List::new(alloc)));
    }
    let refs = refs_of(alloc, nodes)?;
    let roots = digits(alloc, roots, nodes.len())?;
    match order(alloc, roots.as_slice(), refs.as_slice()) {
        Ok(order) => Ok((false, order)),
        Err(OrderFault::Cycle(cycle)) => Ok((true, cycle)),
        Err(OrderFault::NoMemory) => Err(OrderFault::NoMemory),
    }
}

#[test]
fn orders_what_is_reached_or_gives_the_first_cycle(rt: HostRuntime) -> Result<(), Fail> {
    let cases = [
        ("0", ["1", "0", "", "", ""], true, "01"),
        ("0", ["21", "", "1", "", ""], false, "120"),
        ("", ["1", "0", "", "", ""], false, ""),
        ("0", ["0", "", "", "", ""], true, "0"),
        ("0", ["12", "3", "3", "", "0"], false, "3120"),
        ("4020", ["1", "", "1", "0", "2"], false, "1240"),
        ("0", ["1", "2", "3", "1", ""], true, "123"),
        ("03", ["11", "", "", "4", "3"], true, "34"),
    ];
    for (roots, nodes, is_cycle, want) in cases {
        let answer = answer_of(rt.alloc(), roots, nodes.as_slice())?;
        let want = digits(rt.alloc(), want, 5)?;
        assert_eq!(rt; answer.0, is_cycle, "from {roots}");
        assert_eq!(rt; answer.1.as_slice(), want.as_slice(), "from {roots}");
    }
    Ok(())
}

#[test]
fn orders_a_long_chain(rt: HostRuntime) -> Result<(), Fail> {
    let refs = chain(rt.alloc(), 1000)?;
    let order = order(rt.alloc(), [0].as_slice(), refs.as_slice())?;
    assert_eq!(rt; order.len(), 1000);
    assert_eq!(rt; order.get(0), Some(&999));
    assert_eq!(rt; order.get(999), Some(&0));
    Ok(())
}
