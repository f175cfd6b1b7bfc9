// What a sheet means: plain reading, matching, runs and walks, as relations over trees, and their laws.
// Each function stands for a theorem, which its contract states.
#![tactic(auto)]

ghost use Rattle.meaning.specs.ReadingLaws.{FormulasRead, CallsSpend, Checkings};
ghost use Rattle.meaning.specs.MatchingLaws.{MatchesPart, MatchesWithin, MatchesSound, MatchesComplete, MatchesDiffer};
ghost use Rattle.meaning.specs.Comparisons.{ComparisonsKeep};
ghost use Rattle.meaning.specs.RunLaws.{RunsLawful, RangesKeep};
ghost use Rattle.meaning.specs.Lengths.{TracesShort};
ghost use Rattle.meaning.specs.Picks.{NumbersTell};
ghost use Rattle.meaning.specs.Draws.{DrawsOne};
ghost use Rattle.meaning.specs.WalkLaws.{WalksExact, WalksEnd};
ghost use Rattle.meaning.specs.Remaining.{WalksNear};
ghost use Rattle.meaning.specs.Samples.{Samples};

// A formula reads in exactly one way.
pub fn formulas_read_one_way()
    ensures { FormulasRead }
{}

// The calls made are the fuel used.
pub fn calls_spend_fuel()
    ensures { CallsSpend }
{}

// A check answers exactly once, and more fuel changes no answer that was not spent.
pub fn checks_answer_once()
    ensures { Checkings }
{}

// Two matches from one state are the same, or their traces part at one choice.
pub fn matches_part()
    ensures { MatchesPart }
{}

// Each pick of a match is below its width.
pub fn match_picks_are_within()
    ensures { MatchesWithin }
{}

// A mark that a live match leaves reads as the target.
pub fn matches_are_sound()
    ensures { MatchesSound }
{}

// A mark that reads as the target is left by a live match.
pub fn matches_are_complete()
    ensures { MatchesComplete }
{}

// No two matches leave the same mark.
pub fn matches_share_no_mark()
    ensures { MatchesDiffer }
{}

// A comparison keeps by its sign, mirrored when the field stands on the right.
pub fn comparisons_keep_by_sign()
    ensures { ComparisonsKeep }
{}

// A run starts with the marks that keeping each field's range leaves.
pub fn runs_keep_ranges()
    ensures { RangesKeep }
{}

// The marks of the runs are the allowed marks of the starting set, each by one trace.
pub fn runs_are_lawful()
    ensures { RunsLawful }
{}

// A trace has one entry at most for each field and for each join that is matched.
pub fn traces_are_short()
    ensures { TracesShort }
{}

// Whatever the numbers, they tell exactly one run.
pub fn numbers_tell_one_run()
    ensures { NumbersTell }
{}

// Whatever the numbers, there is exactly one draw from them.
pub fn numbers_draw_once()
    ensures { DrawsOne }
{}

// A whole walk issues each allowed mark of the starting set once, and nothing else.
pub fn walks_are_exact()
    ensures { WalksExact }
{}

// There is exactly one whole walk, and it ends.
pub fn walks_end()
    ensures { WalksEnd }
{}

// Each next run is nearer to the end of the walk.
pub fn walks_come_nearer()
    ensures { WalksNear }
{}

// The worked examples hold.
pub fn samples_hold()
    ensures { Samples }
{}
