// The loader: filled tables are taken for a program where they hold the flat form of one.
#![tactic(auto)]

mod loaded;

pub use loaded::Program;
pub use loaded::load::every_program_keeps_its_form;
