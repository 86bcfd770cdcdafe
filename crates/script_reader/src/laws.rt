//! Laws of the definitions.
ghost use Rattle.std.specs.Prelude.{◌<◌, List};
ghost use Rattle.vg_base.specs.declared.script.Script.{Script};
ghost use Rattle.script_reader.specs.Depth.{script_depth};
ghost use Rattle.script_reader.specs.Grammar.{SpellsScript};
ghost use Rattle.script_reader.specs.declared.lexing.lexeme.Lexeme.{Lexeme};
ghost use Rattle.script_reader.specs.Laws.{Complete, Sound, Viable, EachHasAnswer, OneAnswer, OneScript, OnePlace, NotBoth};

/// The machine reads what the grammar spells, as what it means, and nothing else; and what it has read so far begins a script.
pub fn machine_reads_the_grammar()
    ensures complete { Complete }
    ensures sound { Sound }
    ensures viable { Viable }
{}

/// `script_answer` is what a text reads as, and nothing else is: one script, or one first place that fits none, and not both.
pub fn each_text_has_one_answer()
    ensures answer { EachHasAnswer }
    ensures one { OneAnswer }
    ensures script { OneScript }
    ensures place { OnePlace }
    ensures either { NotBoth }
{}

/// What lexemes spell is under 600 levels deep, however long its chains of operators and parts are.
pub fn scripts_are_shallow()
    ensures { (lexemes : List Lexeme) (script : Script) → SpellsScript lexemes script → script_depth script < 600 }
{}
