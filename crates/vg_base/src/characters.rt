//! Classes of characters: white space, and what names are made of.
ghost use Rattle.std.specs.Prelude.{◌≡◌};
ghost use Rattle.vg_base.specs.Characters.{is_space, is_char, is_name_start, is_name};

/// White space of grammars and scripts: space, tab, carriage return and line feed.
pub fn is_space(c: char) -> bool
    ensures { result ≡ is_space c }
{
    matches!(c, '\t' | '\n' | '\r' | ' ')
}

/// A character that a document may have: `Char` of XML 1.0, section 2.2.
pub fn is_char(c: char) -> bool
    ensures { result ≡ is_char c }
{
    matches!(
        c,
        '\t' | '\n' | '\r' | '\u{20}'..='\u{D7FF}' | '\u{E000}'..='\u{FFFD}' | '\u{10000}'..='\u{10FFFF}'
    )
}

/// A character that a name may begin with: `NameStartChar` of XML 1.0, section 2.3, without the colon.
pub fn is_name_start(c: char) -> bool
    ensures { result ≡ is_name_start c }
{
    matches!(
        c,
        'A'..='Z'
            | '_'
            | 'a'..='z'
            | '\u{C0}'..='\u{D6}'
            | '\u{D8}'..='\u{F6}'
            | '\u{F8}'..='\u{2FF}'
            | '\u{370}'..='\u{37D}'
            | '\u{37F}'..='\u{1FFF}'
            | '\u{200C}'..='\u{200D}'
            | '\u{2070}'..='\u{218F}'
            | '\u{2C00}'..='\u{2FEF}'
            | '\u{3001}'..='\u{D7FF}'
            | '\u{F900}'..='\u{FDCF}'
            | '\u{FDF0}'..='\u{FFFD}'
            | '\u{10000}'..='\u{EFFFF}'
    )
}

/// A character that a name may go on with: `NameChar` of XML 1.0, section 2.3, without colon, full stop and hyphen.
pub fn is_name(c: char) -> bool
    ensures { result ≡ is_name c }
{
    is_name_start(c)
        || matches!(
            c,
            '0'..='9' | '\u{B7}' | '\u{300}'..='\u{36F}' | '\u{203F}'..='\u{2040}'
        )
}
