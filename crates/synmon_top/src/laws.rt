//! Laws of outcomes.

ghost use Rattle.std.specs.Prelude.{◌≡◌, ℕ, List, Option, Some};
ghost use Rattle.syn_outside.specs.NamedFiles.{NamedFiles};
ghost use Rattle.command_line.specs.declared.request.Request.{Request};
ghost use Rattle.command_line.specs.Line.{IsLine};
ghost use Rattle.report_outcome.specs.Outcome.{Outcome, IsDecided};
ghost use Rattle.report_outcome.specs.declared.ending.Ending.{Ending};
ghost use Rattle.synmon_top.specs.Causes.{AsksToGenerate};

/// The files and the words decide the outcome: of the endings that no device and no want of memory brings about, only
/// one can come, with one text. For `generate` the words alone decide it, whatever the files tell.
pub fn the_outcome_is_unique()
    ensures files { (files : NamedFiles) (words : List (List ℕ)) (e f : Ending)
        (out other : List ℕ) → Outcome (Some files) words e out
        → Outcome (Some files) words f other → IsDecided e → IsDecided f
        → (e ≡ f) × (out ≡ other) }
    ensures generated { (held : Option NamedFiles) (words : List (List ℕ)) → AsksToGenerate words
        → (e f : Ending) (out other : List ℕ) → Outcome held words e out
        → Outcome held words f other → IsDecided e → IsDecided f → (e ≡ f) × (out ≡ other) }
{}

/// Lines whose requests differ in the number of workers alone have the same outcomes.
pub fn workers_change_no_outcome()
    ensures { (held : Option NamedFiles) (words others : List (List ℕ)) (r s : Request)
        → IsLine words r → IsLine others s → r ≡ record s { workers = r.workers }
        → (e : Ending) (out : List ℕ) → Outcome held words e out → Outcome held others e out }
{}
