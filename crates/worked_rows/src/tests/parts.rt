use super::{scripts, values};

const ITEMS_ARE_READ: &str = r#"[7, 8][1] => 8
[7][1] => null
[7][-1] => null
[7]["0"] => Kind
"abc"[0] => Kind
null[0] => Kind"#;

const LISTS_AND_STRINGS_HAVE_A_LENGTH: &str = r#"[7, []].length => 2
"\u00e9\ud83d\udcde".length => 2
[].size => Kind
(5).length => Kind
[]["length"] => Kind
"ab"["length"] => Kind
{}.length => null"#;

const MEMBERS_ARE_READ: &str = r#"{b: 1}.b => 1
{b: 1}.c => null
{b: 1}["b"] => 1
{2: 1}[2] => 1
{"-2": 1}[-2] => 1
{b: {c: [3, 4]}}.b.c[1] => 4
{}[true] => Kind
{}[null] => Kind
true.b => Kind"#;

const VALUES_ARE_COPIED: &str = r#"out = [1]; out[1] = out => [1,[1]]
x = [1]; y = x; y[0] = 2; out = [x, y] => [[1],[2]]"#;

#[test]
fn parts_are_read(host: HostRuntime) {
    let rt = &host;
    values(rt, ITEMS_ARE_READ);
    values(rt, LISTS_AND_STRINGS_HAVE_A_LENGTH);
    values(rt, MEMBERS_ARE_READ);
    scripts(rt, VALUES_ARE_COPIED);
}
