// Examples and counterexamples to theorems about executing a process: what it does next, which answers fit, and what its bytecode does.
ghost use Rattle.std.specs.Prelude.{◌≡◌, List, [], ◌∷◌, ℕ, pos};
ghost use Rattle.ti_base.specs.declared.action.Action.TheVariants as act;
ghost use Rattle.ti_base.specs.declared.entry.Answer.{Answer};
ghost use Rattle.ti_base.specs.declared.entry.Answer.TheVariants.{Done, Val};
ghost use Rattle.ti_base.specs.declared.entry.Next.{Next};
ghost use Rattle.ti_base.specs.declared.entry.Next.TheVariants as next;
ghost use Rattle.ti_base.specs.declared.place.Place.{Place};
ghost use Rattle.ti_base.specs.declared.value.Value.TheVariants as v;
ghost use Rattle.ti_lang.specs.Meaning.Answers.{FitsAction};
ghost use Rattle.ti_lang.specs.Meaning.Evaluation.{eval};
ghost use Rattle.ti_lang.specs.Meaning.Scoping.{Env};
ghost use Rattle.ti_eval.specs.Forms.{IsFormedAnswer};
ghost use Rattle.ti_exec.specs.Standing.{TreeProcView, HasNext};
ghost use Rattle.ti_code.specs.Follows as code;
ghost use Rattle.ti_code.specs.Machine.{Machine, first};
ghost use Rattle.ti_code.specs.Programs.{Code};
ghost use Rattle.ti_lower_expr.specs.Doing.{Implements, Pushes, who_in};
ghost use Rattle.ti_lower.specs.Programs.{program_code};
ghost use Rattle.ti_machine.specs.ProcView as machine;
ghost use Rattle.ti_rows.specs.Refuted.Codes.{prints_at, pushes, standing_view, start, stops, the_end, the_print};
ghost use Rattle.ti_rows.specs.Refuted.Programs as programs;
ghost use Rattle.ti_rows.specs.Refuted.Sets.{two_coordinates};
ghost use Rattle.ti_rows.specs.Refuted.Things.{a_number, fresh};

/// What a process does next, and which answers fit it.
pub fn processes()
    ensures something_is_next { (s : TreeProcView) → s.told ≡ [] → (n : Next) × HasNext s n }
    ensures an_end_as_an_action { (s : TreeProcView) (at : Place) → HasNext s (next.Act at act.End) → ⊥ }
    ensures an_answer { FitsAction (fresh 0) Done }
    ensures a_number_for_an_arrival { FitsAction (fresh 0) (Val (v.Int (pos 1))) → ⊥ }
    ensures a_point_without_its_form { IsFormedAnswer (Val (v.Pt two_coordinates)) → ⊥ }
{}

/// Which bytecode evaluates an expression.
pub fn pushes()
    ensures the_number { (env : Env) → Implements (who_in env) (pushes 7) start (eval env a_number) (Pushes [] 1 []) }
    ensures another_number { (env : Env) → Implements (who_in env) (pushes 8) start (eval env a_number) (Pushes [] 1 []) → ⊥ }
{}

/// Which bytecode follows a program.
pub fn codes()
    ensures its_code { program_code programs.a_print ≡ prints_at 62 }
    ensures the_print { code.HasNext (prints_at 62) (first (prints_at 62) 2 1000 0) [] the_print }
    ensures no_print { code.Follows stops programs.a_print → ⊥ }
    ensures a_print_elsewhere { code.Follows (prints_at 63) programs.a_print → ⊥ }
{}

/// How many instructions are finished with the last of some answers: at most one number.
pub fn counts()
    ensures one_number { (c : Code) (m : Machine) (rs : List Answer) (j k : ℕ) → code.Finishes c m rs j → code.Finishes c m rs k → j ≡ k }
    ensures two_instructions { code.Finishes (prints_at 62) (first (prints_at 62) 2 1000 0) (Done ∷ []) 2 }
    ensures three_instructions { code.Finishes (prints_at 62) (first (prints_at 62) 2 1000 0) (Done ∷ []) 3 → ⊥ }
    ensures an_answer_to_an_end { (k : ℕ) → code.Finishes stops (first stops 2 1000 0) (Done ∷ []) k → ⊥ }
    ensures two_as_counted { machine.HasFinished (record (standing_view (prints_at 62)) { answers = Done ∷ [] }) 2 }
    ensures one_as_counted { machine.HasFinished (record (standing_view (prints_at 62)) { answers = Done ∷ [] }) 1 → ⊥ }
{}

/// What a process of bytecode does next: it is unique, and if the bytecode follows no program, it isn't what the program does.
pub fn machines()
    ensures the_print { machine.HasNext (standing_view (prints_at 62)) the_print }
    ensures an_end_beside_it { machine.HasNext (standing_view (prints_at 62)) the_end → ⊥ }
    ensures an_end { machine.HasNext (standing_view stops) the_end }
    ensures no_print { machine.HasNext (standing_view stops) the_print → ⊥ }
{}
