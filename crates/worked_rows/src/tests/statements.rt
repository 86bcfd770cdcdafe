use super::scripts;

const VARIABLES_ARE_DECLARED_AND_SET: &str = r#"var x; out = x => null
var x = 1; out = x => 1
x = "b"; out = x => "b"
x = 1; var x; out = x => 1
x = 1; var x = 2; out = x => 2
var x = x => Unknown"#;

const ONE_BRANCH_IS_RUN: &str = r#"if ("0") out = 1; else out = 2; => 1
if (0) out = 1; else out = 2; => 2
if (null) out = 1; else out = 2; => 2
if (x) out = 1; else out = 2; => Unknown
if ([]) out = 1; => 1
if ("") out = 1; => {}"#;

const STATEMENTS_COME_ONE_AFTER_ANOTHER: &str = r#"; => {}
{x = 3; out = x} => 3
out = 1; 1 < "a" => Kind
out = x; [] => Unknown
5 => {}"#;

#[test]
fn statements_are_run(host: HostRuntime) {
    let rt = &host;
    scripts(rt, VARIABLES_ARE_DECLARED_AND_SET);
    scripts(rt, ONE_BRANCH_IS_RUN);
    scripts(rt, STATEMENTS_COME_ONE_AFTER_ANOTHER);
}
