//! The words that mean something in a script.
ghost use Rattle.std.specs.Prelude.{◌≡◌, true, bytes_eq};
ghost use Rattle.std.specs.List.{list_all};
ghost use Rattle.script_reader.specs.Roles as roles;

use vg_base::Text;

/// What a word is.
#[derive(Clone, Copy, PartialEq, Eq)]
pub enum Role {
    Out,
    Rules,
    Meta,
    True,
    False,
    Null,
    Var,
    If,
    Else,
    /// A name that is a call behind `rules.` and `meta.`.
    Latest,
    /// A name that is a call behind `meta.`.
    Current,
    /// A name that ends `meta.name.text`.
    Text,
    /// A reserved word without a use.
    Reserved,
    Name,
}

/// Whether a word is this one, which is of ASCII.
fn is(word: &Text, keyword: &str) -> bool
    requires { list_all roles.is_small keyword.now ≡ true }
    ensures { result ≡ bytes_eq word.now keyword.now }
{
    word.as_str() == keyword
}

fn is_reserved(word: &Text) -> bool
    ensures { result ≡ roles.is_reserved word.now }
{
    is(word, "break")
        || is(word, "case")
        || is(word, "catch")
        || is(word, "continue")
        || is(word, "default")
        || is(word, "delete")
        || is(word, "do")
        || is(word, "finally")
        || is(word, "for")
        || is(word, "function")
        || is(word, "in")
        || is(word, "instanceof")
        || is(word, "new")
        || is(word, "return")
        || is(word, "switch")
        || is(word, "this")
        || is(word, "throw")
        || is(word, "try")
        || is(word, "typeof")
        || is(word, "void")
        || is(word, "while")
        || is(word, "with")
}

/// The role of a word.
#[tactic(auto, unfolding(crate::specs::Roles::role_of))]
pub fn role_of(word: &Text) -> Role
    ensures { result ≡ roles.role_of word.now }
{
    if is(word, "out") {
        Role::Out
    } else if is(word, "rules") {
        Role::Rules
    } else if is(word, "meta") {
        Role::Meta
    } else if is(word, "true") {
        Role::True
    } else if is(word, "false") {
        Role::False
    } else if is(word, "null") {
        Role::Null
    } else if is(word, "var") {
        Role::Var
    } else if is(word, "if") {
        Role::If
    } else if is(word, "else") {
        Role::Else
    } else if is(word, "latest") {
        Role::Latest
    } else if is(word, "current") {
        Role::Current
    } else if is(word, "text") {
        Role::Text
    } else if is_reserved(word) {
        Role::Reserved
    } else {
        Role::Name
    }
}

/// Whether a word of this role may name a variable.
pub fn is_name(role: Role) -> bool
    ensures { result ≡ roles.is_name role }
{
    matches!(role, Role::Name | Role::Latest | Role::Current | Role::Text)
}
