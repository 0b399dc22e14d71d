ghost use Rattle.std.specs.Prelude.{◌≡◌, ℕ, List};
ghost use Rattle.codon_front.specs.Due.{Due, IsDueOfText};
ghost use Rattle.codon_front.specs.declared.command.Action.{Action};

/// For each text and each thing to do with it, one thing is due and one only.
pub fn law_of_dues()
    ensures one { (action : Action) (text : List ℕ) (d e : Due) → IsDueOfText action text d → IsDueOfText action text e → d ≡ e }
{}
