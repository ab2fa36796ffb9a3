// The laws of scripts, over all documents and names.
ghost use Rattle.std.specs.Prelude.{◌≡◌, ℕ, List, Some, slice_get};
ghost use Rattle.ld_json.specs.Node.{NodeView};
ghost use Rattle.ld_script.specs.Names.{AreNames, NamesView};
ghost use Rattle.ld_script.specs.Refusal.{RefusesScripts};
ghost use Rattle.ld_script.specs.ScriptView.{ScriptView};
ghost use Rattle.ld_script.specs.Scripts.{AreScriptsOf};
ghost use Rattle.ld_script.specs.ScriptsView.{AreScripts, ScriptsView};
ghost use Rattle.ld_script.specs.declared.fault.ScriptFault.{ScriptFault};

/// The scripts of a document are refused with one fault at most.
pub fn one_refusal()
    ensures { (node : NodeView) (f g : ScriptFault) → RefusesScripts node f → RefusesScripts node g → f ≡ g }
{}

/// An object of scripts says the same scripts always.
pub fn one_reading()
    ensures { (node : NodeView) (a b : ScriptsView) → AreScriptsOf node a → AreScriptsOf node b → a ≡ b }
{}

/// A name is that of one script at most, and the names that scripts use have one number each.
pub fn one_number()
    ensures scripts { (names : List (List ℕ)) (scripts : List ScriptView) → AreScripts names scripts →
        (name : List ℕ) (j k : ℕ) → slice_get names j ≡ Some name → slice_get names k ≡ Some name → j ≡ k }
    ensures names { (names : NamesView) → AreNames names →
        (name : List ℕ) (j k : ℕ) → slice_get names.texts j ≡ Some name → slice_get names.texts k ≡ Some name → j ≡ k }
{}
