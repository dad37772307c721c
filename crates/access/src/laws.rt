// What is true of the definitions. Each function stands here for the theorems in its contract; it does nothing.
ghost use Rattle.access.specs.Chains.{Transitive, StepFirst, Monotone, Reversible, Closed};
ghost use Rattle.access.specs.Rights.{SetsAreSums, CommonIsBoth, WithinIsCommon};
ghost use Rattle.access.specs.History.Names.{FoundWhole};
ghost use Rattle.access.specs.History.Runs.{OneStep, WholeRuns, LocalMeans, ChainsAddNothing, GroupsFlow};
ghost use Rattle.access.specs.History.Standing.{Standing};
ghost use Rattle.access.specs.Rules.Agreement.{AcceptsLegal, ServesModel, AccountsModel, GainersPresent};
ghost use Rattle.access.specs.Rules.Examples.{Examples};
ghost use Rattle.access.specs.Rules.Questions.{LoadShows};
ghost use Rattle.access.specs.Rules.Revoking.{Revoking};
ghost use Rattle.access.specs.Rules.Sequences.{OneOutcome, OneRun};
ghost use Rattle.access.specs.Rules.Telling.{TellsTruly};
ghost use Rattle.access.specs.Rules.Tracking.{Tracking};
ghost use Rattle.access.specs.Rules.Worked.{WorkedExample};

fn rights()
    ensures sets_are_sums { SetsAreSums }
    ensures common_is_both { CommonIsBoth }
    ensures within_is_common { WithinIsCommon }
{}

fn chains()
    ensures transitive { Transitive }
    ensures step_first { StepFirst }
    ensures monotone { Monotone }
    ensures reversible { Reversible }
    ensures closed { Closed }
{}

fn names()
    ensures found_whole { FoundWhole }
    ensures load_shows { LoadShows }
{}

// Which triples stand after a history.
fn standing()
    ensures { Standing }
{}

// Separation and flow, through every run of service.
fn confinement()
    ensures one_step { OneStep }
    ensures whole_runs { WholeRuns }
    ensures local_means { LocalMeans }
    ensures chains_add_nothing { ChainsAddNothing }
    ensures groups_flow { GroupsFlow }
{}

// The rules of the table, beside the access model.
fn agreement()
    ensures accepts_legal { AcceptsLegal }
    ensures serves_model { ServesModel }
    ensures accounts_model { AccountsModel }
    ensures gainers_present { GainersPresent }
    ensures revoking { Revoking }
{}

// The rules leave nothing open.
fn outcomes()
    ensures one_outcome { OneOutcome }
    ensures one_run { OneRun }
    ensures tells_truly { TellsTruly }
{}

fn worked_example()
    ensures { WorkedExample }
{}

fn refusal_examples()
    ensures { Examples }
{}

// Account and table, through every call.
fn tracking()
    ensures { Tracking }
{}
