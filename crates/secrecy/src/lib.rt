// What the label rule is good for: its definitions are in specs/.
#![tactic(auto)]

ghost use Rattle.secrecy.specs.Laws.{TypedProgramsKeepLevelsApart, PassedProgramsKeepLevelsApart};

// A theorem: from a program that is typed, or that the label rule passes, the observer at a level learns nothing of what it does not see.
pub fn passed_programs_keep_levels_apart()
    ensures typed { TypedProgramsKeepLevelsApart }
    ensures passed { PassedProgramsKeepLevelsApart }
{}
