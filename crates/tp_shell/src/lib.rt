//! What the command-line programs share: the options of a pool, error lines, the reasons for a specification that names
//! no pool, input and output, exit statuses, how a program ends that prints one text, and the times of a run as Chrome's
//! trace events. What each program does is not here.
#![tactic(auto)]

mod diagnostics;
mod environment;
mod numbers;
mod options;
mod process;
mod profile;
mod program;
mod spec_reasons;
mod status;
mod streams;
mod words;

pub use diagnostics::{Diagnostics, ProgramFault, complain};
pub use environment::{HasArguments, arguments, asks_version, is_quiet, without_words, words_of};
pub use numbers::{A_NUMBER, cut, number_of, short_number_of};
pub use options::{VERSION, config_of, count_of, count_option, with_counts};
pub use process::{Input, Messages, Output, explain_failure};
pub use profile::{Log, Profile, Run, Timed};
pub use program::{Ending, begin, end};
pub use spec_reasons::{explain_spec, explain_specs};
pub use status::Status;
pub use streams::{ReadFault, Source, write_text};
pub use words::{ParserError, WordsFault, names_a_file, show, tell_words};
