//! Laws of scripts and their texts.
ghost use Rattle.std.specs.Prelude.{◌≡◌, List, ℕ};
ghost use Rattle.world_script.specs.declared.script.Script.{Script};
ghost use Rattle.world_script.specs.declared.script.ScriptFault.{ScriptFault};
ghost use Rattle.world_script.specs.Script.{IsScript};
ghost use Rattle.world_script.specs.Fault.{IsFault};

/// A text is the text of one script.
pub fn a_text_is_one_script()
    ensures { (bytes : List ℕ) (one other : Script) → IsScript one bytes → IsScript other bytes →
        (one.regions ≡ other.regions) × (one.events ≡ other.events) }
{}

/// The text of a script has no bad line.
pub fn a_script_has_no_fault()
    ensures { (bytes : List ℕ) (script : Script) (fault : ScriptFault) → IsScript script bytes → IsFault bytes fault → ⊥ }
{}

/// A text that is no script has one first bad line.
pub fn a_fault_is_one_line()
    ensures { (bytes : List ℕ) (one other : ScriptFault) → IsFault bytes one → IsFault bytes other → one ≡ other }
{}
