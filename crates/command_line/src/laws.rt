//! Laws of lines.
ghost use Rattle.std.specs.Prelude.{◌≡◌, ℕ, List, []};
ghost use Rattle.command_line.specs.declared.request.Request.{Request};
ghost use Rattle.command_line.specs.declared.fault.LineFault.{LineFault};
ghost use Rattle.command_line.specs.declared.fault.LineFault.TheVariants.{Memory};
ghost use Rattle.command_line.specs.Parsing.{faults_of};
ghost use Rattle.command_line.specs.Line.{IsLine, IsTaken, IsFaultOf, IsInRange};

/// The words of a line ask for one request, and its numbers are in range.
pub fn a_line_asks_for_one_request()
    ensures one { (words : List (List ℕ)) (r s : Request) → IsLine words r → IsLine words s
        → r ≡ s }
    ensures range { (words : List (List ℕ)) (r : Request) → IsLine words r → IsInRange r }
{}

/// The words of a line have no fault but want of memory.
pub fn a_line_has_no_fault()
    ensures { (words : List (List ℕ)) (r : Request) (fault : LineFault) → IsLine words r
        → IsFaultOf words fault → fault ≡ Memory }
{}

/// Words in which `clap` finds no fault give a command word and an operand.
pub fn words_that_are_taken_give_both_words()
    ensures { (words : List (List ℕ)) → faults_of words ≡ []
        → (command operand : List ℕ) × IsTaken words command operand }
{}

/// Words have one fault at most, but for want of memory.
pub fn words_have_one_fault()
    ensures { (words : List (List ℕ)) (fault other : LineFault) → IsFaultOf words fault
        → IsFaultOf words other → ¬ (fault ≡ Memory) → ¬ (other ≡ Memory) → fault ≡ other }
{}
