//! A law of what the code of processes does.
ghost use Rattle.occam_code.specs.Behaves.{CodeBehaves};

/// The code of a sequential process, run by itself, does what the process does, whatever comes to it: it says the same,
/// ends with the same variables, halts by a set Error flag exactly if the process errs, waits for a message exactly if the
/// process does, meets no other fault, and goes on while the process goes on. `IsSequential` says which processes these are.
pub fn processes_behave()
    ensures law { CodeBehaves }
{}
