//! Laws of generated files.
ghost use Rattle.std.specs.Prelude.{◌≡◌, ◌<◌, ◌≤◌, ℕ, length};
ghost use Rattle.automaton_file.specs.FileText.{most_bytes, IsSource, IsRefusal};
ghost use Rattle.generated_file.specs.Generated.{least_size, most_size, generated_text, generated_source};

/// The file of a size is accepted: it is short enough, it spells its automaton over the alphabet ab, and it is never
/// refused.
pub fn generated_files_are_accepted()
    ensures short { (size : ℕ) → size ≤ most_size → length (generated_text size) < most_bytes }
    ensures source { (size : ℕ) → least_size ≤ size → size ≤ most_size
        → IsSource (generated_text size) (generated_source size) }
    ensures refused { (size at code : ℕ) → least_size ≤ size → size ≤ most_size
        → ¬ IsRefusal (generated_text size) at code }
{}

/// The least and the greatest size of a generated file.
pub fn the_limits()
    ensures least { least_size ≡ 2 }
    ensures most { most_size ≡ 1000 }
{}
