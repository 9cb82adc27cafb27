//! The sections of commands, and what these need.

use command_line::Command;
use report_sections::{needs_elements, needs_green, needs_table, sections_of};
use std::test::Fail;

/// Commands that print one section, and whether it needs the elements, Green's classes and the table.
const COMMANDS: [(Command, bool, bool, bool); 4] = [
    (Command::Automaton, false, false, false),
    (Command::Local, true, false, true),
    (Command::RTrivial, true, true, false),
    (Command::Generate, true, true, true),
];

#[test]
fn commands_have_their_sections_and_needs(rt: HostRuntime) -> Result<(), Fail> {
    for (command, elements, green, table) in COMMANDS {
        assert_eq!(rt; sections_of(&command), [command].as_slice());
        assert_eq!(rt; needs_elements(command), elements);
        assert_eq!(rt; needs_green(command), green);
        assert_eq!(rt; needs_table(command), table);
    }
    Ok(())
}
