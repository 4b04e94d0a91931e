// The report on the labels of a site program, under a scheme and a level sheet that are texts.
#![tactic(auto)]

ghost use Rattle.print.specs.Appending.{Appends};
ghost use Rattle.label_report.specs.Report.{answer_line, program_report, report};

use fault::Fault;
use label_check::check_labels;
use levels::Scheme;
use print::{Entry, Keyword, put_fault, put_line};
use program::{ROW_LIMIT, Row, TERM_LIMIT, Term};
use program_loader::load_program;
use scheme_report::{PartReport, report_parts};
use sheet::LevelSheet;
use std::alloc::AllocError;

// The part of the input that holds the program.
const PROGRAM_PART: u8 = 3;

// The third part is the text of a site program.
struct Labels;

impl PartReport for Labels {
    ghost text = { program_report };

    fn report_part<S: Scheme>(
        out: &mut Vec<u8>,
        scheme: &S,
        sheet: &LevelSheet,
        text: &[u8],
    ) -> Result<(), AllocError> {
        let mut rows = [Row::BLANK; ROW_LIMIT];
        let mut terms = [Term::BLANK; TERM_LIMIT];
        match load_program(text, &mut rows, &mut terms) {
            Ok(program) => put_answer(out, check_labels(scheme, sheet, &program)),
            Err(fault) => put_fault(out, PROGRAM_PART, fault),
        }
    }
}

fn put_answer(out: &mut Vec<u8>, answer: Result<(), Fault>) -> Result<(), AllocError>
    ensures { Appends out.old (answer_line answer) result out.new }
{
    match answer {
        Ok(()) => put_line(out, Keyword::Labels, &[Entry::Word(Keyword::Pass)]),
        Err(fault) => {
            let entries = [Entry::Word(Keyword::Leak), Entry::Number(fault.line as u64)];
            put_line(out, Keyword::Labels, &entries)
        }
    }
}

// The input is a scheme, a level sheet and a site program, parted by lines `-`.
pub fn report_labels(out: &mut Vec<u8>, input: &[u8]) -> Result<(), AllocError>
    ensures { Appends out.old (report input.now) result out.new }
{
    report_parts::<Labels>(out, input)
}
