// What the sweeper means, as definitions that compute, and the theorems about them.
// There is nearly no code here: each function carries one theorem in its contract.
#![tactic(auto)]

ghost use Rattle.model.specs.CutLaws.{TablesReadBack, MeaningsTabulate, StretchingKeepsMeaning, SqueezingKeepsWhatMatters, JoiningIsAnd, JoinedWords, OneMeaningOneCut, TrivialCutIsItsNode, ComplementsShareAKey};
ghost use Rattle.model.specs.ChoiceLaws.{ChoosingKeepsTheFirst};
ghost use Rattle.model.specs.GraphLaws.{GrowingChangesNothingEarlier, CutsStay, CapacityIsLargest};
ghost use Rattle.model.specs.RunLaws.{RunsHaveEqualSignals, RunsReduceTheGraph, RunsOnFewInputsAreComplete, RunsLoseNothing, Deterministic, EveryRunIsSound, CallsExtendRuns, SessionsFit};
ghost use Rattle.model.specs.Worked.{WorkedSessions};

// What was tabulated over some leaves is read back under every valuation of them.
pub fn tables_read_back()
    ensures { TablesReadBack }
{}

// A well-formed cut has the table of its meaning.
pub fn meanings_tabulate()
    ensures { MeaningsTabulate }
{}

// A cut stretched onto more leaves says the same.
pub fn stretching_keeps_meaning()
    ensures { StretchingKeepsMeaning }
{}

// A squeezed cut says the same, over exactly the leaves that matter.
pub fn squeezing_keeps_what_matters()
    ensures { SqueezingKeepsWhatMatters }
{}

// A joined cut is well formed and says the AND of its parts, each under its sign.
pub fn joining_is_and()
    ensures { JoiningIsAnd }
{}

// The joined table is the AND of the stretched tables, each complemented for its sign.
pub fn joined_words()
    ensures { JoinedWords }
{}

// Two well-formed cuts of one meaning are one cut.
pub fn one_meaning_one_cut()
    ensures { OneMeaningOneCut }
{}

// The trivial cut is well formed and says the value of its node.
pub fn trivial_cut_is_its_node()
    ensures { TrivialCutIsItsNode }
{}

// A cut and its complement have one key, and the key with its sign gives the cut back.
pub fn complements_share_a_key()
    ensures { ComplementsShareAKey }
{}

// The chosen cuts are the first n of a stable order, and no other list is.
pub fn choosing_keeps_the_first()
    ensures { ChoosingKeepsTheFirst }
{}

// One more node changes no earlier value or height, nor what a cut describes.
pub fn growing_changes_nothing_earlier()
    ensures { GrowingChangesNothingEarlier }
{}

// One more node changes no earlier node's cuts.
pub fn cuts_stay()
    ensures { CutsStay }
{}

// The capacity is the largest number of nodes that the tables hold.
pub fn capacity_is_largest()
    ensures { CapacityIsLargest }
{}

// The definitions yield the table of worked sessions and the example's report.
pub fn worked_sessions()
    ensures { WorkedSessions }
{}

// After every run each source node has the value of its mapped edge, and cuts and keys describe their nodes.
pub fn equal_signals_over_runs()
    ensures { RunsHaveEqualSignals }
{}

// After every run the graph is reduced, each gate kept the first of its candidates, and the tally is that of the history.
pub fn reduced_graph_over_runs()
    ensures { RunsReduceTheGraph }
{}

// With few inputs and inputs-first rankings, edges have one reduced edge exactly where they agree.
pub fn complete_on_few_inputs()
    ensures { RunsOnFewInputsAreComplete }
{}

// After every run the source is the accepted calls, numbers are in range, and no refused call changed anything.
pub fn nothing_lost_over_runs()
    ensures { RunsLoseNothing }
{}

// Two runs of the same calls, by rankings of equal relation, give equal states and answers.
pub fn runs_are_deterministic()
    ensures { Deterministic }
{}

// Every run keeps all the laws.
pub fn every_run_is_sound()
    ensures { EveryRunIsSound }
{}

// Whatever run led to a state, with any call it leads to the state after it, and that run keeps all the laws.
pub fn calls_extend_runs()
    ensures { CallsExtendRuns }
{}

// The numbers of a session fit the premise of the laws.
pub fn sessions_fit()
    ensures { SessionsFit }
{}
