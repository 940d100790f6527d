// What is true of verdicts: a function stands for the statement that its contract names.
ghost use Rattle.phase_input.specs.Verdict.{OneVerdict};

/// What is decided is the first reason that applies, and nothing else is.
pub fn one_verdict()
    ensures { OneVerdict }
{}
