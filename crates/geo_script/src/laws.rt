//! Laws of scripts, each the contract of a function that does nothing.
ghost use Rattle.std.specs.Prelude.{◌≡◌, ◌↔◌, ◌⊎◌, ℕ, List, Ok, Err};
ghost use Rattle.geo_script.specs.declared.fault.ScriptFault.{ScriptFault};
ghost use Rattle.geo_script.specs.declared.script.Form.{Form};
ghost use Rattle.geo_script.specs.declared.script.Script.{Script};
ghost use Rattle.geo_script.specs.Faults.{IsFault};
ghost use Rattle.geo_script.specs.Spelling.{IsScriptText};
ghost use Rattle.geo_script.specs.inner.Scripts.{script_of};

/// A text is that of one script or has one fault, and never both.
pub fn a_text_is_of_one_script_or_has_one_fault()
    ensures either { (form : Form) (bytes : List ℕ) → ((script : Script) × IsScriptText form bytes script) ⊎ ((fault : ScriptFault) × IsFault form bytes fault) }
    ensures never { (form : Form) (bytes : List ℕ) (script : Script) (fault : ScriptFault) → IsScriptText form bytes script → ¬ IsFault form bytes fault }
    ensures script { (form : Form) (bytes : List ℕ) (a b : Script) → IsScriptText form bytes a → IsScriptText form bytes b → a ≡ b }
    ensures fault { (form : Form) (bytes : List ℕ) (a b : ScriptFault) → IsFault form bytes a → IsFault form bytes b → a ≡ b }
{}

/// The code's chain reads a script of a text exactly where the text spells it: its two first lines, one line
/// for each table and index above the line `begin`, and one for each event behind that, with nothing but empty
/// lines and comments between them.
pub fn scripts_are_their_texts()
    ensures { (form : Form) (bytes : List ℕ) (script : Script) →
        (script_of form bytes ≡ Ok script) ↔ IsScriptText form bytes script }
{}

/// The code's chain finds a fault exactly where the text is too long, or where the lines before one begin a
/// script and with that line, or without any more lines, they are none. What is wrong with a bad line is the
/// first of the kinds of fault that it has, each said of the line itself.
pub fn faults_are_first_bad_lines()
    ensures { (form : Form) (bytes : List ℕ) (fault : ScriptFault) →
        (script_of form bytes ≡ Err fault) ↔ IsFault form bytes fault }
{}
