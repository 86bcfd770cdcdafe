//! The members of replies that hold script values, and the arrays: faults of a publish, and what
//! the best parses mean.
ghost use Rattle.std.specs.Prelude.{◌≡◌, [], ◌∷◌, IfOk, OnOk, map};
ghost use Rattle.std.specs.List.{AllByRecursion};
ghost use Rattle.serde_json.specs.View.{view, items_of, items_view};
ghost use Rattle.script_value.specs.Kept.{IsKept};
ghost use Rattle.json_reply.specs.Kept.{IsKeptFault, IsKeptResult};
ghost use Rattle.json_reply.specs.Rows.{best_data, fault_data, faults_field, result_field, results_field};
ghost use Rattle.json_reply.specs.code.Putting.{held, put_each};

use crate::object::Object;
use crate::reply::BestResult;
use linker::SetFault;
use script_value::{Value, to_json};
use std::alloc::Global;
use vg_base::Memory;

/// `result`.
pub(crate) fn put_result(object: &mut Object, meant: &Value) -> Result<(), Memory>
    ensures put { OnOk result (held object.new
        ≡ put_each (held object.old) (result_field meant.now ∷ [])) }
    ensures kept { OnOk result (IsKept meant.now) }
{
    let value = to_json(object.alloc, meant)?;
    object.put("result", value)
}

/// `results`.
pub(crate) fn put_results(object: &mut Object, meant: &[BestResult]) -> Result<(), Memory>
    ensures put { OnOk result (held object.new
        ≡ put_each (held object.old) (results_field meant.now ∷ [])) }
    ensures kept { OnOk result (AllByRecursion IsKeptResult meant.now) }
{
    let all = results(object.alloc, meant)?;
    object.put("results", serde_json::Value::Array(all))
}

/// `faults`.
pub(crate) fn put_faults(object: &mut Object, first: &[SetFault]) -> Result<(), Memory>
    ensures put { OnOk result (held object.new
        ≡ put_each (held object.old) (faults_field first.now ∷ [])) }
    ensures kept { OnOk result (AllByRecursion IsKeptFault first.now) }
{
    let all = faults(object.alloc, first)?;
    object.put("faults", serde_json::Value::Array(all))
}

fn fault(alloc: Global, fault: &SetFault) -> Result<serde_json::Value, Memory>
    ensures json { IfOk result (λ value. view value ≡ fault_data fault.now) }
    ensures kept { IfOk result (λ value. IsKeptFault fault.now) }
{
    let mut object = Object::new(alloc);
    object.number("column", fault.place.column)?;
    object.word("fault", fault.kind.name())?;
    object.number("line", fault.place.line)?;
    object.text("uri", &fault.uri)?;
    Ok(object.into_value())
}

fn faults(alloc: Global, faults: &[SetFault]) -> Result<Vec<serde_json::Value>, Memory>
    ensures json { IfOk result (λ all. items_view all.items
        ≡ items_of (map fault_data faults.now)) }
    ensures kept { IfOk result (λ all. AllByRecursion IsKeptFault faults.now) }
{
    let mut all = Vec::new(alloc);
    for one in faults {
        all.push(fault(alloc, one)?)?;
    }
    Ok(all)
}

fn best(alloc: Global, meant: &BestResult) -> Result<serde_json::Value, Memory>
    ensures json { IfOk result (λ value. view value ≡ best_data meant.now) }
    ensures kept { IfOk result (λ value. IsKeptResult meant.now) }
{
    let mut object = Object::new(alloc);
    match meant {
        BestResult::Given(value) => put_result(&mut object, value)?,
        BestResult::Fault(fault) => {
            object.tag(fault.kind)?;
            object.rule(&fault.rule, &fault.uri)?;
        }
    }
    Ok(object.into_value())
}

fn results(alloc: Global, results: &[BestResult]) -> Result<Vec<serde_json::Value>, Memory>
    ensures json { IfOk result (λ all. items_view all.items
        ≡ items_of (map best_data results.now)) }
    ensures kept { IfOk result (λ all. AllByRecursion IsKeptResult results.now) }
{
    let mut all = Vec::new(alloc);
    for one in results {
        all.push(best(alloc, one)?)?;
    }
    Ok(all)
}
