// The label rule and the typing rules of site programs. Both are definitions in specs/.
#![tactic(auto)]

ghost use Rattle.typing.specs.Laws.{PassingIsTyping};

// A theorem: the label rule passes exactly the programs that the typing rules derive.
pub fn passing_is_typing()
    ensures { PassingIsTyping }
{}
