// The laws of the construction. Each ties what is worked out to what it means, for every book within its bounds and, where one occurs, for every policy.
ghost use Rattle.grammar.specs.Cases.{CasesHold};
ghost use Rattle.grammar.specs.Laws.{ReachedMeans, YieldsMeans, ClosingMeans, ReadsMean, ExpansionMeans, NextMeans, PoliciesLawful, StatesMean, BuildMeans};

// That sets of symbols and of items mean what their relations say, that the policies keep their law, that the states are the kernels
// of the construction, and what each answer of a build says.
pub fn laws_hold() -> bool
    ensures reached { ReachedMeans }
    ensures yields { YieldsMeans }
    ensures closing { ClosingMeans }
    ensures reads { ReadsMean }
    ensures expansion { ExpansionMeans }
    ensures next { NextMeans }
    ensures policies { PoliciesLawful }
    ensures states { StatesMean }
    ensures build { BuildMeans }
{
    true
}

// That the definitions yield every worked case.
pub fn cases_hold() -> bool
    ensures { CasesHold }
{
    true
}
