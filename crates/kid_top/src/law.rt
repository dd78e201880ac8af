ghost use Rattle.kid_top.specs.ScriptSpelling.{ScriptsAreSpelled};

/// A file is taken for the script just where it spells it. This law is the contract of a function that does nothing.
pub fn scripts_are_spelled()
    ensures { ScriptsAreSpelled }
{}
