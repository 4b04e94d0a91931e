// Theorems about programs, their texts and their flat form.
ghost use Rattle.program.specs.Laws.{ReadingInvertsWriting, FlatFormTellsTheProgram, TextTellsTheProgram};

// A text is read exactly if it is the writing of a program that keeps its limits, and then as the flat form of that program.
#[tactic(auto, using(crate::proofs::Programs::reading_inverts_writing))]
pub fn reading_inverts_writing()
    ensures { ReadingInvertsWriting }
{}

// No two programs have one flat form: the scan of its lines finds the program again.
#[tactic(auto, using(crate::proofs::Programs::flat_form_tells_the_program))]
pub fn flat_form_tells_the_program()
    ensures { FlatFormTellsTheProgram }
{}

// No text is the writing of two programs.
#[tactic(auto, using(crate::proofs::Programs::text_tells_the_program))]
pub fn text_tells_the_program()
    ensures { TextTellsTheProgram }
{}
