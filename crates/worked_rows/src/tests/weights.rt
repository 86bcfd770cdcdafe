//! What the variables of one rule instance may weigh together.

use super::{Ground, characters, leads_from, opening};
use vg_base::Text;

/// A list of 4,095 values, and this many variables more that hold it.
fn copies(rt: &impl Ground, count: u32) -> Text {
    let mut script = characters(rt, "x = null; ");
    for _turn in 0..11 {
        script.push_str("x = [x, x]; ").expect(rt, "memory");
    }
    let mut name = characters(rt, "y");
    for _turn in 0..count {
        name.push_str("y").expect(rt, "memory");
        script.push_str(name.as_str()).expect(rt, "memory");
        script.push_str(" = x; ").expect(rt, "memory");
    }
    script
}

#[test]
fn full_variables_are_kept_up_to_the_most_weight(host: HostRuntime) {
    let rt = &host;
    assert!(host;
        leads_from(rt, opening(rt.alloc()), &copies(rt, 127), "{}"),
        "128 full values"
    );
    assert!(host;
        !leads_from(rt, opening(rt.alloc()), &copies(rt, 128), "{}"),
        "129 full values"
    );
}
