//! Theories that are read, and theories that are refused.
use kid_theory::{TheoryCode, TheoryFault, read_theory};
use kid_value::Memory;
use std::alloc::Global;
use std::process::Abort;

/// The forms of a theory that is read.
const FORMS: [&str; 5] = [
    "(theory square)",
    "(input n (int 0 100))",
    "(require (le 1 n))",
    "(output z (int 1 10))",
    "(ensure (eq (mul z z) n))",
];

pub fn refusal(alloc: Global, file: &[u8]) -> Option<TheoryFault> {
    read_theory(alloc, file).err()
}

/// Whether the file was made and reads as a theory.
pub fn is_taken(alloc: Global, file: Result<Vec<u8>, Memory>) -> bool {
    match file {
        Ok(file) => refusal(alloc, &file).is_none(),
        Err(_) => false,
    }
}

/// Whether the file was made and is refused at this form with this code.
pub fn is_refused(
    alloc: Global,
    file: Result<Vec<u8>, Memory>,
    form: u32,
    code: TheoryCode,
) -> bool {
    match file {
        Ok(file) => refusal(alloc, &file) == Some(TheoryFault { form, code }),
        Err(_) => false,
    }
}

/// The forms with a text in place of those from one place to before another.
fn changed(alloc: Global, from: usize, to: usize, instead: &str) -> Result<Vec<u8>, Memory> {
    let mut file = Vec::new(alloc);
    for (at, form) in FORMS.iter().enumerate() {
        if at == from {
            file.extend_from_slice(instead.as_bytes())?;
        }
        if at < from || to <= at {
            file.extend_from_slice(form.as_bytes())?;
        }
        file.push(b'\n')?;
    }
    if from == FORMS.len() {
        file.extend_from_slice(instead.as_bytes())?;
    }
    Ok(file)
}

/// Each text is taken in place of the forms from one place to before another.
pub fn takes(rt: &impl Abort, alloc: Global, from: usize, to: usize, texts: &[&str]) {
    for instead in texts {
        let file = changed(alloc, from, to, instead);
        assert!(rt; is_taken(alloc, file), "at {instead}");
    }
}

/// Each text is refused in place of the forms from one place to before another.
pub fn refuses(
    rt: &impl Abort,
    alloc: Global,
    from: usize,
    to: usize,
    cases: &[(&str, u32, TheoryCode)],
) {
    for case in cases {
        let (instead, form, code) = *case;
        let file = changed(alloc, from, to, instead);
        assert!(rt; is_refused(alloc, file, form, code), "at {instead}");
    }
}

/// Each law is refused for its proof, at this form, in place of the forms from one place to before another.
pub fn refuses_proofs(
    rt: &impl Abort,
    alloc: Global,
    from: usize,
    to: usize,
    form: u32,
    laws: &[&str],
) {
    for instead in laws {
        let file = changed(alloc, from, to, instead);
        assert!(rt;
            is_refused(alloc, file, form, TheoryCode::Proof),
            "at {instead}"
        );
    }
}
