//! The texts of the faults.
use kid_theory::{TheoryCode, TheoryFault};
use std::test::Fail;

#[test]
fn tells_its_faults(rt: HostRuntime) -> Result<(), Fail> {
    let cases = [
        (0, TheoryCode::Large, "form 0: large"),
        (0, TheoryCode::Read, "form 0: read"),
        (7, TheoryCode::Limit, "form 7: limit"),
        (7, TheoryCode::Form, "form 7: form"),
        (7, TheoryCode::Name, "form 7: name"),
        (7, TheoryCode::Cycle, "form 7: cycle"),
        (7, TheoryCode::Sort, "form 7: sort"),
        (7, TheoryCode::Proof, "form 7: proof"),
        (0, TheoryCode::Memory, "form 0: memory"),
    ];
    for (form, code, want) in cases {
        let fault = TheoryFault { form, code };
        assert_eq!(rt; format!(in rt.alloc(); "{fault}")?.as_str(), want);
    }
    Ok(())
}
