//! The limits of this project: the most that there may be of each.
ghost use Rattle.std.specs.Prelude.{◌≡◌};
ghost use Rattle.vg_base.specs.Limits as limits;

/// Bytes that a run of the server takes.
pub const INPUT_BYTES: u64 = 1_073_741_824;

/// Bytes of a line, without its line feed.
pub const LINE_BYTES: u64 = 2_097_152;

/// Commands of a batch, over all areas.
pub const BATCH_COMMANDS: u64 = 1024;

/// Publishes of a batch, over all areas.
pub const BATCH_PUBLISHES: u64 = 64;

/// Bytes of lines with which a batch ends.
pub const BATCH_BYTES: u64 = 16_777_216;

/// Staged documents of an area.
pub const DOCUMENTS: u64 = 64;

/// Bytes of all staged texts of an area.
pub const DOCUMENT_BYTES: u64 = 1_048_576;

/// Lexemes of a document.
pub const LEXEMES: u64 = 65_536;

/// Brackets of a document, or what nests in a script, open at one place.
pub const NESTING: u64 = 64;

/// Number of a repeat.
pub const REPEAT: u64 = 65_535;

/// Size of the rules of a version.
pub const NODES: u64 = 65_536;

/// Bytes of a reference.
pub const URI_BYTES: u64 = 2048;

/// Faults of a publish that are told one by one.
pub const TOLD_FAULTS: u64 = 64;

/// Entries of a publish.
pub const ENTRIES: u64 = 64;

/// Open sessions of an area.
pub const SESSIONS: u64 = 64;

/// Activations of a session.
pub const ACTIVATIONS: u64 = 32;

/// Bytes of the name of a session.
pub const SESSION_NAME_BYTES: u64 = 64;

/// Words of a match line.
pub const WORDS: u64 = 64;

/// Bytes of the words of a match line.
pub const WORD_BYTES: u64 = 16_384;

/// Parses of a match line that asks for the best.
pub const PARSES: u64 = 4;

/// Number of an area.
pub const LAST_AREA: u64 = 7;

/// Loaders of a publish.
pub const LOADERS: u64 = 16;

/// Whole number of a script, on both sides of 0 (2^53 - 1).
pub const SCRIPT_NUMBER: u64 = 9_007_199_254_740_991;

/// Bytes of a string of a script.
pub const STRING_BYTES: u64 = 65_536;

/// Values in a value of a script, itself among them.
pub const VALUES: u64 = 4096;

/// Bytes of strings and keys in a value of a script.
pub const VALUE_BYTES: u64 = 262_144;

/// Depth of a value of a script.
pub const VALUE_DEPTH: u64 = 64;

/// Each constant is the limit of its name.
pub fn limits_are_stated()
    ensures input_bytes { INPUT_BYTES ≡ limits.input_bytes }
    ensures line_bytes { LINE_BYTES ≡ limits.line_bytes }
    ensures batch_commands { BATCH_COMMANDS ≡ limits.batch_commands }
    ensures batch_publishes { BATCH_PUBLISHES ≡ limits.batch_publishes }
    ensures batch_bytes { BATCH_BYTES ≡ limits.batch_bytes }
    ensures documents { DOCUMENTS ≡ limits.documents }
    ensures document_bytes { DOCUMENT_BYTES ≡ limits.document_bytes }
    ensures lexemes { LEXEMES ≡ limits.lexemes }
    ensures nesting { NESTING ≡ limits.nesting }
    ensures repeat { REPEAT ≡ limits.repeat }
    ensures nodes { NODES ≡ limits.nodes }
    ensures uri_bytes { URI_BYTES ≡ limits.uri_bytes }
    ensures told_faults { TOLD_FAULTS ≡ limits.told_faults }
    ensures entries { ENTRIES ≡ limits.entries }
    ensures sessions { SESSIONS ≡ limits.sessions }
    ensures activations { ACTIVATIONS ≡ limits.activations }
    ensures session_name_bytes { SESSION_NAME_BYTES ≡ limits.session_name_bytes }
    ensures words { WORDS ≡ limits.words }
    ensures word_bytes { WORD_BYTES ≡ limits.word_bytes }
    ensures parses { PARSES ≡ limits.parses }
    ensures last_area { LAST_AREA ≡ limits.last_area }
    ensures loaders { LOADERS ≡ limits.loaders }
    ensures script_number { SCRIPT_NUMBER ≡ limits.script_number }
    ensures string_bytes { STRING_BYTES ≡ limits.string_bytes }
    ensures values { VALUES ≡ limits.values }
    ensures value_bytes { VALUE_BYTES ≡ limits.value_bytes }
    ensures value_depth { VALUE_DEPTH ≡ limits.value_depth }
{}
