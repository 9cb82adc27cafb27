//! The sections of a report. A section is named by the command that prints it alone.
ghost use Rattle.std.specs.Prelude.{◌≡◌, ◌↔◌, IsTrue};
ghost use Rattle.report_sections.specs.Sections.{sections_of};
ghost use Rattle.report_sections.specs.CommandNeeds.{needs_of, NeedsElements, NeedsGreen, NeedsTable};

use command_line::Command;

/// What a section needs to have been computed.
#[derive(Clone, Copy, Debug, PartialEq, Eq)]
pub struct Needs {
    /// The elements of the syntactic monoid.
    pub elements: bool,
    /// Green's classes of the monoid.
    pub green: bool,
    /// The table of its products, if it is within its limit.
    pub table: bool,
}

/// The sections of `report`, in their order.
static REPORT_SECTIONS: [Command; 8] = [
    Command::Automaton,
    Command::Monoid,
    Command::Green,
    Command::StarFree,
    Command::Piecewise,
    Command::Local,
    Command::RTrivial,
    Command::Commutative,
];

/// What a section needs. A section is named by the command that prints it alone; `report` is none.
pub fn needs_of(section: Command) -> Needs
    ensures { result ≡ needs_of section }
{
    let (elements, green, table) = match section {
        Command::Automaton | Command::Report => (false, false, false),
        Command::Monoid | Command::Commutative => (true, false, false),
        Command::Green | Command::Piecewise | Command::RTrivial | Command::Bound => {
            (true, true, false)
        }
        Command::StarFree | Command::Local | Command::Table => (true, false, true),
        Command::Generate => (true, true, true),
    };
    Needs {
        elements,
        green,
        table,
    }
}

/// The sections that a command prints, in their order.
pub fn sections_of(command: &Command) -> &[Command]
    ensures { result.now ≡ sections_of command.now }
{
    match command {
        Command::Report => &REPORT_SECTIONS,
        alone => std::slice::from_ref(alone),
    }
}

/// Whether a command needs the elements of the syntactic monoid.
pub fn needs_elements(command: Command) -> bool
    ensures { IsTrue result ↔ NeedsElements command }
{
    sections_of(&command)
        .iter()
        .any(|section| needs_of(*section).elements)
}

/// Whether a command needs Green's classes.
pub fn needs_green(command: Command) -> bool
    ensures { IsTrue result ↔ NeedsGreen command }
{
    sections_of(&command)
        .iter()
        .any(|section| needs_of(*section).green)
}

/// Whether a command needs the table of products.
pub fn needs_table(command: Command) -> bool
    ensures { IsTrue result ↔ NeedsTable command }
{
    sections_of(&command)
        .iter()
        .any(|section| needs_of(*section).table)
}
