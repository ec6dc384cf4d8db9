//! Certificates that are read, written, lifted, shown and bounded; words of commands, and what is printed. There is nothing here but
//! tests.
#![tactic(auto)]

#[cfg(test)]
mod arcs_job_tests;
#[cfg(test)]
mod bound_tests;
#[cfg(test)]
mod bound_texts;
#[cfg(test)]
mod cert_lines_tests;
#[cfg(test)]
mod cert_text_tests;
#[cfg(test)]
mod cert_words_tests;
#[cfg(test)]
mod command_words_option_tests;
#[cfg(test)]
mod command_words_signal_tests;
#[cfg(test)]
mod command_words_tests;
#[cfg(test)]
mod job_answers_tests;
#[cfg(test)]
mod old_cert_tests;
#[cfg(test)]
mod outcome_report_tests;
#[cfg(test)]
mod real_text;
#[cfg(test)]
mod report_tests;
#[cfg(test)]
mod report_text_tests;
#[cfg(test)]
mod tests;
#[cfg(test)]
mod texts;
#[cfg(test)]
mod track_text_tests;
