//! Texts: scripts and reports that are read and printed, and states that are printed.
//! The crate keeps the grammar of these texts and nothing else. Nothing here has a state: a text goes in and a value comes out,
//! or a value goes in and its one text comes out.
//!
//! A contract sees a script as a program, which is the script without where it lies in memory, and a report as a record of lists.
//! It sees a text as bytes. The text of a program is one definition; the first fault of other bytes is another, which reads them
//! from the front.
//!
//! Proved here: `read_script` gives a script exactly where the bytes are its text, and else the first fault by line and kind;
//! `parse` does the same, but for a script whose threads run by themselves, which it refuses as line 0 and kind 0; a text is carried
//! out or refused for one fault; `read_report` gives a report exactly where the bytes are its text, and else the line of the first
//! fault; `print`, `report_text` and `state_text` write the one text; two programs never have one text, nor two reports. Want of
//! memory stands beside each.
//! Proved only above: that a report is that of a life, so that its marks' epochs follow one another and its numbers are small.
//! Only tested: that an ample memory suffices. Each byte of a text is looked at a fixed number of times.
#![tactic(auto)]

mod built;
mod commands;
mod fault;
mod head;
mod keep;
mod laws;
mod mode;
mod numbers;
mod pieces;
mod place;
mod printing;
mod report;
mod report_entries;
mod report_items;
mod report_reading;
mod report_rooms;
mod reporting;
mod schedules;
mod script;
mod sections;
mod stating;
mod turns;
mod whole;

pub use built::parse;
pub use fault::{ScriptFault, ScriptRefusal, kind_name};
pub use laws::{one_program, one_refusal, report_text_law};
pub use mode::Mode;
pub use printing::print;
pub use report::Report;
pub use report_reading::{ReportRefusal, read_report};
pub use reporting::report_text;
pub use schedules::{threads_named_law, turn_count_law, turn_law};
pub use script::Script;
pub use stating::state_text;
pub use whole::read_script;

#[cfg(test)]
mod tests;
