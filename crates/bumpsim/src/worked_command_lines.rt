//! Worked command lines: each function has as its clause which run the words mean, and nothing to do. The first word is
//! the program's own name.
#![tactic(auto, unfolding(crate::proofs::OnWords::on_words))]

ghost use Rattle.std.specs.Prelude.{◌≡◌, List, [], ◌∷◌, Some, None, codes};
ghost use Rattle.bumpsim.specs.Words.{asked_run};
ghost use Rattle.bumpsim.specs.declared.runs.Mode.TheVariants as mode;

/// `model` and a file.
pub fn model_and_file()
    ensures { asked_run (codes "bumpsim" ∷ codes "model" ∷ codes "trace" ∷ []) ≡ Some (mode.Model, codes "trace", 1) }
{}

/// `serial` and a file.
pub fn serial_and_file()
    ensures { asked_run (codes "bumpsim" ∷ codes "serial" ∷ codes "trace" ∷ []) ≡ Some (mode.Serial, codes "trace", 1) }
{}

/// `par` and a file.
pub fn par_and_file()
    ensures { asked_run (codes "bumpsim" ∷ codes "par" ∷ codes "trace" ∷ []) ≡ Some (mode.Par, codes "trace", 1) }
{}

/// `par`, a file and a number of drainers, 1 to 64.
pub fn one_drainer()
    ensures { asked_run (codes "bumpsim" ∷ codes "par" ∷ codes "trace" ∷ codes "1" ∷ [])
        ≡ Some (mode.Par, codes "trace", 1) }
{}

/// The most drainers.
pub fn most_drainers()
    ensures { asked_run (codes "bumpsim" ∷ codes "par" ∷ codes "trace" ∷ codes "64" ∷ [])
        ≡ Some (mode.Par, codes "trace", 64) }
{}

/// None are too few.
pub fn no_drainer()
    ensures { asked_run (codes "bumpsim" ∷ codes "par" ∷ codes "trace" ∷ codes "0" ∷ []) ≡ None }
{}

/// 65 are too many.
pub fn too_many_drainers()
    ensures { asked_run (codes "bumpsim" ∷ codes "par" ∷ codes "trace" ∷ codes "65" ∷ []) ≡ None }
{}

/// The number has no leading zero.
pub fn leading_zero()
    ensures { asked_run (codes "bumpsim" ∷ codes "par" ∷ codes "trace" ∷ codes "01" ∷ []) ≡ None }
{}

/// It is a number.
pub fn no_number()
    ensures { asked_run (codes "bumpsim" ∷ codes "par" ∷ codes "trace" ∷ codes "x" ∷ []) ≡ None }
{}

/// No word follows it.
pub fn word_behind_drainers()
    ensures { asked_run (codes "bumpsim" ∷ codes "par" ∷ codes "trace" ∷ codes "1" ∷ codes "1" ∷ []) ≡ None }
{}

/// Only `par` has drainers.
pub fn drainers_of_serial()
    ensures { asked_run (codes "bumpsim" ∷ codes "serial" ∷ codes "trace" ∷ codes "1" ∷ []) ≡ None }
{}

/// No other mode is taken.
pub fn other_mode()
    ensures { asked_run (codes "bumpsim" ∷ codes "parallel" ∷ codes "trace" ∷ []) ≡ None }
{}

/// A file is needed.
pub fn no_file()
    ensures { asked_run (codes "bumpsim" ∷ codes "model" ∷ []) ≡ None }
{}

/// And one alone.
pub fn two_files()
    ensures { asked_run (codes "bumpsim" ∷ codes "model" ∷ codes "trace" ∷ codes "other" ∷ []) ≡ None }
{}

/// A request for help is refused.
pub fn help()
    ensures { asked_run (codes "bumpsim" ∷ codes "--help" ∷ []) ≡ None }
{}

/// So is an option.
pub fn option()
    ensures { asked_run (codes "bumpsim" ∷ codes "-v" ∷ codes "model" ∷ codes "trace" ∷ []) ≡ None }
{}
