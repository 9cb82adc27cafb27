//! The commands.
ghost use Rattle.std.specs.Prelude.{◌≡◌, IfSome, IsNone};
ghost use Rattle.command_line.specs.Tables.{command_word};

/// What the program is asked to print.
#[derive(Clone, Copy, Debug, PartialEq, Eq)]
pub enum Command {
    /// The minimal automaton.
    Automaton,
    /// The elements of the syntactic monoid and their rules.
    Monoid,
    /// Green's classes of the syntactic monoid, as an egg-box diagram.
    Green,
    /// Whether the language is star-free, with a star-free expression.
    StarFree,
    /// Whether short subwords tell the language, and from which length on.
    Piecewise,
    /// Whether short factors tell the language, and from which length on.
    Local,
    /// Whether the syntactic monoid is R-trivial.
    RTrivial,
    /// Whether the syntactic monoid is commutative.
    Commutative,
    /// A longest chain of ideals of the syntactic monoid, and the level that it bounds.
    Bound,
    /// The products of all elements.
    Table,
    /// All sections but the bound and the table.
    Report,
    /// The numbers and the answers for the generated file of a size.
    Generate,
}

/// The command with a word.
pub(crate) fn command_of(word: &str) -> Option<Command>
    ensures some { IfSome result (λ command. word.now ≡ command_word command) }
    ensures none { IsNone result → (command : Command) → ¬ (word.now ≡ command_word command) }
{
    match word {
        "automaton" => Some(Command::Automaton),
        "monoid" => Some(Command::Monoid),
        "green" => Some(Command::Green),
        "starfree" => Some(Command::StarFree),
        "piecewise" => Some(Command::Piecewise),
        "local" => Some(Command::Local),
        "rtrivial" => Some(Command::RTrivial),
        "commutative" => Some(Command::Commutative),
        "bound" => Some(Command::Bound),
        "table" => Some(Command::Table),
        "report" => Some(Command::Report),
        "generate" => Some(Command::Generate),
        _ => None,
    }
}
