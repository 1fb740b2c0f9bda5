//! Laws of scripts. Each function has an empty body, and its contract is the law.

ghost use Rattle.std.specs.Prelude.{◌≡◌, ◌⊎◌, List, ℕ};
ghost use Rattle.sd_script.specs.declared.script.Script.{Script};
ghost use Rattle.sd_outside.specs.Lines.{lines};
ghost use Rattle.sd_script.specs.Grammar.{IsScript, IsFirstOutside};
ghost use Rattle.std.specs.List.{concat};

/// A text is that of one script, or has one first line outside the grammar, and never both. Its lines are the text.
pub fn one_reading()
    ensures lines { (text : List ℕ) → concat (lines text) ≡ text }
    ensures script { (text : List ℕ) (a b : Script) → IsScript text a → IsScript text b → a ≡ b }
    ensures line { (text : List ℕ) (m n : ℕ) → IsFirstOutside text m → IsFirstOutside text n → m ≡ n }
    ensures either { (text : List ℕ) → ((script : Script) × IsScript text script) ⊎ ((n : ℕ) × IsFirstOutside text n) }
    ensures never_both { (text : List ℕ) (script : Script) (n : ℕ) → IsScript text script → IsFirstOutside text n → ⊥ }
{}
