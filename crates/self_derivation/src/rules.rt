//! Which rules derive themselves.
ghost use Rattle.std.specs.Prelude.{◌≡◌, ◌↔◌, true, Some, length, slice_get, IfOk};
ghost use Rattle.vg_base.specs.declared.numbers.RuleIx.{RuleIx};
ghost use Rattle.grammar_tree.specs.Alone.{SelfDerive};

use crate::empty::empty_nodes;
use crate::steps::graph_of;
use grammar_tree::Linked;
use std::alloc::Global;
use vg_base::Memory;

/// A mark for each rule: whether leads go from it back to it, so that it derives itself with nothing beside.
pub fn self_deriving(alloc: Global, linked: &Linked) -> Result<Vec<bool>, Memory>
    ensures sized { IfOk result (λ marks. length marks.items ≡ length linked.now.rules) }
    ensures exact { IfOk result (λ marks. (r : RuleIx) → (slice_get marks.items r.0 ≡ Some true) ↔ SelfDerive linked.now r) }
{
    let empty = empty_nodes(alloc, linked)?;
    let graph = graph_of(alloc, linked, &empty)?;
    let mut marks = graph.on_cycles(alloc)?;
    marks.truncate(linked.rule_count());
    Ok(marks)
}
