//! Tests of texts and runs: the words of a command line, sections, endings, and whole runs over devices in memory and
//! over the files of the system.
#![tactic(auto)]

#[cfg(test)]
mod command_lines;
#[cfg(test)]
mod endings;
#[cfg(test)]
mod running;
#[cfg(test)]
mod runs;
#[cfg(test)]
mod sections;
#[cfg(test)]
mod texts;
#[cfg(test)]
mod workers;
