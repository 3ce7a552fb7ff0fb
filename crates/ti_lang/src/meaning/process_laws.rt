// Theorems about every process of every program.
ghost use Rattle.std.specs.Prelude.{◌≡◌, ◌+◌, ◌≤◌, length, ℕ, false, List, [], ◌∷◌, ◌++◌};
ghost use Rattle.ti_base.specs.declared.place.Place.{Place};
ghost use Rattle.ti_base.specs.declared.action.Action.{Action};
ghost use Rattle.ti_base.specs.declared.entry.Answer.{Answer};
ghost use Rattle.ti_base.specs.declared.entry.Next.{Next};
ghost use Rattle.ti_base.specs.declared.entry.Next.TheVariants as next;
ghost use Rattle.ti_lang.specs.Meaning.Processes.{RunConfig, Process, ContItem, begin};
ghost use Rattle.ti_lang.specs.Meaning.NextStep.{IsNext, After};
ghost use Rattle.ti_lang.specs.Meaning.Comp.{Request, Gives, Asks};
ghost use Rattle.ti_lang.specs.Meaning.Scoping.{Env};
ghost use Rattle.ti_lang.specs.Meaning.Moves.{Move};
ghost use Rattle.ti_lang.specs.Meaning.Performing.{exec_item};
ghost use Rattle.ti_lang.specs.Meaning.Steps.{At, most_frames, step};
ghost use Rattle.ti_lang.specs.Meaning.Histories.{is_end, is_fault};

/// What a process has next exists and is unique: an action, its end or a fault. In particular, its silent steps terminate.
pub fn one_next()
    ensures some { (p : Process) → (n : Next) × IsNext p n }
    ensures only { (p : Process) (m n : Next) → IsNext p m → IsNext p n → m ≡ n }
{}

/// A process is deterministic: the answers that it has received determine its configuration.
pub fn one_process()
    ensures { (p q r : Process) (rs : List Answer) → After p rs q → After p rs r → q ≡ r }
{}

/// The request of a process is never an end or a fault.
pub fn asks_for_actions()
    ensures { (p : Process) (q : Request) (go : Answer → Process) → step p ≡ At q go
        → (is_end q.action ≡ false) × (is_fault q.action ≡ false) }
{}

/// A process continues after any answer if it has an action next, and after none if it has an end or a fault next; each answer
/// costs it at least one tick.
pub fn goes_on()
    ensures acts { (p : Process) (at : Place) (a : Action) (r : Answer) → IsNext p (next.Act at a) → (q : Process) × After p (r ∷ []) q }
    ensures only_acts { (p q : Process) (n : Next) (r : Answer) → IsNext p n → After p (r ∷ []) q
        → (at : Place) × (a : Action) × (n ≡ next.Act at a) }
    ensures costs { (p q : Process) (rs : List Answer) → After p rs q → p.spent + length rs ≤ q.spent }
{}

/// Each item of work consumes its answers in order: if it yields a move after consuming them all, it yields the same move if more
/// follow, which it leaves over; and it consumes the answer to its last request before it yields a move.
pub fn answers_in_order()
    ensures no_further { (env : Env) (w : ContItem) (rs more : List Answer) (move : Move) → exec_item env w rs ≡ Gives move []
        → exec_item env w (rs ++ more) ≡ Gives move more }
    ensures used_up { (env : Env) (w : ContItem) (rs rest : List Answer) (q : Request) (r : Answer) (move : Move) → exec_item env w rs ≡ Asks q
        → exec_item env w (rs ++ r ∷ []) ≡ Gives move rest → rest ≡ [] }
{}

/// Whatever answers a process receives, it spends at most its fuel and has at most `most_frames` frames.
pub fn within_limits()
    ensures { (s : RunConfig) (i : ℕ) (rs : List Answer) (p : Process) → After (begin s i) rs p
        → (p.spent ≤ s.fuel) × (length p.frames ≤ most_frames) }
{}
