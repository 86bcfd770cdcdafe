//! Laws of the definitions, each the contract of a function that does nothing.
ghost use Rattle.script_value.specs.Laws.{JsonTellsValues, TextsTellValues};
ghost use Rattle.script_value.specs.Laws.{ListsAreMeasured, RecordsAreMeasured, MeasuresTellLimits};

/// Values with one JSON, or with one text of their JSON, are one.
pub fn texts_tell_values()
    ensures json { JsonTellsValues }
    ensures texts { TextsTellValues }
{}

/// A value can be measured in parts, and its measures tell its limits.
pub fn measured_in_parts()
    ensures lists { ListsAreMeasured }
    ensures records { RecordsAreMeasured }
    ensures limits { MeasuresTellLimits }
{}
