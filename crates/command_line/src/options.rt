//! The options that take a number.
ghost use Rattle.std.specs.Prelude.{◌≡◌, ◌<◌, ◌≤◌};
ghost use Rattle.command_line.specs.Tables.{row, option_at};

/// An option that takes a number: its word, without the two dashes before it, its smallest number, its number where it
/// is not given, and its largest.
#[derive(Clone, Copy)]
pub(crate) struct NumberOption {
    pub(crate) word: &'static str,
    pub(crate) least: u32,
    pub(crate) usual: u32,
    pub(crate) most: u32,
}

/// How many such options there are.
pub(crate) const NUMBER_COUNT: usize = 7;

/// The table of these options.
static NUMBER_OPTIONS: [NumberOption; NUMBER_COUNT] = [
    NumberOption {
        word: "subsets",
        least: 1,
        usual: 2_000,
        most: 4_096,
    },
    NumberOption {
        word: "elements",
        least: 1,
        usual: 10_000,
        most: 50_000,
    },
    NumberOption {
        word: "table",
        least: 1,
        usual: 2_000,
        most: 8_000,
    },
    NumberOption {
        word: "nodes",
        least: 1,
        usual: 200_000,
        most: 1_000_000,
    },
    NumberOption {
        word: "level",
        least: 1,
        usual: 6,
        most: 12,
    },
    NumberOption {
        word: "pairs",
        least: 1,
        usual: 20_000,
        most: 100_000,
    },
    NumberOption {
        word: "workers",
        least: 1,
        usual: 1,
        most: 64,
    },
];

/// The option at a place of the table. Condition: the table has the place.
pub(crate) fn option_at(place: usize) -> NumberOption
    requires { place < NUMBER_COUNT }
    ensures row { row result.word.now result.least result.usual result.most ≡ option_at place }
    ensures least { result.least ≤ result.usual }
    ensures most { result.usual ≤ result.most }
{
    NUMBER_OPTIONS[place]
}
