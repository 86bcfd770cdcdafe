//! The first tree, and the first k trees.

ghost use Rattle.std.specs.Prelude.{◌≡◌, ◌≤◌, IfOk};
ghost use Rattle.grammar_tree.specs.Links.{IsLinked};
ghost use Rattle.grammar_tree.specs.Derives.{OfBody};
ghost use Rattle.grammar_tree.specs.Alone.{NoSelfDerivation};
ghost use Rattle.grammar_tree.specs.Firsts.{RuleFirsts};
ghost use Rattle.earley_chart.specs.Chart.{RanOn};
ghost use Rattle.parse_choice.specs.Choice.{IsFirst};

use crate::walk::{Ground, Walked, walk_through};
use earley_chart::Chart;
use grammar_tree::{Linked, ParseTree};
use sqlite_items::Items;
use std::alloc::Global;
use vg_base::{Memory, NodeIx, Word};

/// The first tree of the chart's rule over the words, where there is one.
pub fn first(
    alloc: Global,
    chart: &Chart,
    linked: &Linked,
    words: &[Word],
) -> Result<Option<ParseTree>, Memory>
    requires ran { RanOn linked.now chart.now }
    requires words { chart.now.words ≡ words.now }
    requires alone { NoSelfDerivation linked.now }
    ensures { IfOk result (IsFirst linked.now chart.now.rule words.now) }
{
    if !chart.matched() {
        return Ok(None);
    }
    let body = body_of(chart, linked);
    let guide = Items::new(alloc);
    let ground = Ground {
        alloc,
        chart,
        linked,
        words,
        body,
        guide: guide.as_slice(),
    };
    let Walked { tree, trail: _ } = walk_through(&ground)?;
    Ok(Some(tree))
}

/// The first k trees of the chart's rule over the words, or all where there are fewer. Each walk but the first turns
/// off from the one before it at the last place where a greater choice can be completed, so no tree is compared.
pub fn firsts(
    alloc: Global,
    chart: &Chart,
    linked: &Linked,
    words: &[Word],
    k: u32,
) -> Result<Vec<ParseTree>, Memory>
    requires ran { RanOn linked.now chart.now }
    requires words { chart.now.words ≡ words.now }
    requires alone { NoSelfDerivation linked.now }
    requires some { 1 ≤ k }
    requires few { k ≤ 4 }
    ensures { IfOk result (λ trees. RuleFirsts linked.now chart.now.rule words.now k trees.items) }
{
    let body = body_of(chart, linked);
    let mut trees = Vec::new(alloc);
    if !chart.matched() {
        return Ok(trees);
    }
    let mut guide = Items::new(alloc);
    for _ in 0..k {
        let ground = Ground {
            alloc,
            chart,
            linked,
            words,
            body,
            guide: guide.as_slice(),
        };
        let Walked { tree, trail } = walk_through(&ground)?;
        trees.push(tree)?;
        match trail.next_guide(alloc)? {
            None => return Ok(trees),
            Some(next) => guide = next,
        }
    }
    Ok(trees)
}

/// The body of the chart's rule.
fn body_of(chart: &Chart, linked: &Linked) -> NodeIx
    requires { RanOn linked.now chart.now }
    ensures body { OfBody linked.now chart.now.rule (λ n. n ≡ result) }
    ensures linked { IsLinked linked.now }
{
    let _linked = linked.rule_count();
    linked.rule(chart.rule()).body
}
