//! Laws of scripts and traces: calls whose postcondition is a theorem.
ghost use Rattle.tp_text.specs.{AuditText.AuditsAreDetermined, Reading.ReadingsAreDetermined, Script.ScriptsAreDetermined};
ghost use Rattle.tp_text.specs.{SimText.TextsAreDetermined, Trace.TracesAreDetermined, TraceOf.{RunsOfOneGeneration, TracesAreReadBack}};

/// States that bytes are the script of at most one version, number of nodes and list of steps.
#[tactic(auto, using(crate::proofs::Readings::scripts_determined))]
pub fn scripts_are_determined()
    ensures { ScriptsAreDetermined }
{}

/// States that for given bytes at most one verdict and one text satisfy the contract of `sim`.
#[tactic(auto, using(crate::proofs::Readings::texts_determined))]
pub fn texts_are_determined()
    ensures { TextsAreDetermined }
{}

/// States that bytes are the trace of at most one version, number of nodes and list of lines.
#[tactic(auto, using(crate::proofs::Readings::traces_determined))]
pub fn traces_are_determined()
    ensures { TracesAreDetermined }
{}

/// States that for given bytes at most one verdict and one text satisfy the contract of `audit`.
#[tactic(auto, using(crate::proofs::Readings::audits_determined))]
pub fn audits_are_determined()
    ensures { AuditsAreDetermined }
{}

/// States that for given bytes all results that satisfy the contract of `read_trace` are the same.
#[tactic(auto, using(crate::proofs::Readings::readings_determined))]
pub fn readings_are_determined()
    ensures { ReadingsAreDetermined }
{}

/// States that reading inverts printing: the trace of some steps is read as these steps, and each judgement in it is
/// right.
pub fn traces_are_read_back()
    ensures { TracesAreReadBack }
{}

/// States that each run of one generation satisfies the precondition `run` of `print_trace`.
#[tactic(auto, using(crate::proofs::Readings::run_in_each))]
pub fn runs_of_one_generation()
    ensures { RunsOfOneGeneration }
{}
