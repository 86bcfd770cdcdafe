//! Weights of alternatives (SRGS 1.0 section 2.4.1), which mean nothing.
ghost use Rattle.std.specs.Prelude.{IfOk};
ghost use Rattle.rule_reader.specs.LeafFaults.{WeightFaults};
ghost use Rattle.rule_reader.specs.code.Walks.{IsShown, IsReadAs};

use crate::decimal::is_weight;
use crate::found::tell;
use crate::places::inside_at;
use abnf_lexer::Spanned;
use std::alloc::Global;
use vg_base::{DocFault, DocKind, Memory, Text};

pub(crate) fn read_weight(
    alloc: Global,
    text: &Text,
    span: Spanned,
    found: &mut Option<DocFault>,
) -> Result<(), Memory>
    requires { IsShown text.now span }
    ensures { IfOk result (IsReadAs (WeightFaults text.now span) (λ u. Unit {0}) found.old found.new) }
{
    let inside = inside_at(alloc, text, span)?;
    let good = is_weight(alloc, &inside)?;
    tell(found, !good, span, DocKind::BadWeight);
    Ok(())
}
