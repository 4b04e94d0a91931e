// Runs of a machine over a list of calls, what a monitor makes of them, and what it promises.
#![tactic(auto)]

ghost use Rattle.runs.specs.Setting.{Setting};
ghost use Rattle.runs.specs.Promises.{AgreeingListsReleasePrefixes, AlarmsExactlyAtTheFirstClash, AllIsReleasedUntilThen};
ghost use Rattle.runs.specs.Laws.{AShadowIsTheBareRunOfWhatItsLevelSees, AnAlarmExplainsTheLeastClash, AStallNamesTheFirstRun};
ghost use Rattle.runs.specs.Laws.{AStateTellsWhatWasAnswered, AReleaseIsTheLongestThatAllMatch, ASlipIsEnough, RunsThatNeverClashNeverAlarm};

// No level learns what it does not see: two lists of calls that agree at a level release to it two lists of tickets, one a beginning of the other.
pub fn agreeing_lists_release_prefixes()
    ensures { (w : Setting) → AgreeingListsReleasePrefixes w }
{}

// A hand-in is answered by an alarm where the runs first clash, and nowhere else.
pub fn alarms_exactly_at_the_first_clash()
    ensures { (w : Setting) → AlarmsExactlyAtTheFirstClash w }
{}

// Up to an alarm or a stall, all that the bare run makes is released.
pub fn all_is_released_until_then()
    ensures { (w : Setting) → AllIsReleasedUntilThen w }
{}

// A run is worked out from what it is fed.
pub fn a_shadow_is_the_bare_run_of_what_its_level_sees()
    ensures { (w : Setting) → AShadowIsTheBareRunOfWhatItsLevelSees w }
{}

// An alarm names the smallest level that clashes, and tells how and where its shadow parts from the bare run.
pub fn an_alarm_explains_the_least_clash()
    ensures { (w : Setting) → AnAlarmExplainsTheLeastClash w }
{}

// A stall names the bare run, or else the smallest level whose shadow stalled.
pub fn a_stall_names_the_first_run()
    ensures { (w : Setting) → AStallNamesTheFirstRun w }
{}

// A state tells what the answers before it brought.
pub fn a_state_tells_what_was_answered()
    ensures { (w : Setting) → AStateTellsWhatWasAnswered w }
{}

// What is released is the longest beginning of the bare run's tickets that every level's shadow matches.
pub fn a_release_is_the_longest_that_all_match()
    ensures { (w : Setting) → AReleaseIsTheLongestThatAllMatch w }
{}

// Sixteen places hold what is released, and a slip keeps its length.
pub fn a_slip_is_enough()
    ensures { (w : Setting) → ASlipIsEnough w }
{}

// Where no level ever clashes there is never an alarm.
pub fn runs_that_never_clash_never_alarm()
    ensures { (w : Setting) → RunsThatNeverClashNeverAlarm w }
{}
