//! Laws of the definitions.

ghost use Rattle.bpf_verify_model.specs.{LongestPath.{CountIsLongestPath}, RuleRows.{RuleRows}};

/// The law of counts: of each function of an accepted program some path from its start to an exit, or
/// to where none goes on, has as many instructions as its count says, and none has more.
#[tactic(auto, using(crate::proofs::PathLaws::count_is_longest_path))]
pub fn law_of_counts()
    ensures { CountIsLongestPath }
{}

/// The definitions give the joins, the states after a store and those on both edges of a comparison
/// and of a null check, and what they refuse: a callback's result that may be 2, and accesses past the
/// end.
pub fn worked_rules()
    ensures { RuleRows }
{}
