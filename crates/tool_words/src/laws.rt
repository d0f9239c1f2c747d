//! What holds of all command lines.

ghost use Rattle.std.specs.Prelude.{◌≡◌, ◌≢◌, ◌↔◌, ◌∷◌, [], None, Some, ◌<◌, ◌^◌, ℕ, List, codes, length, option_map, true};
ghost use Rattle.std.specs.Fmt.{decimal};
ghost use Rattle.std.specs.List.{list_all};
ghost use Rattle.tool_words.specs.Job.{Audit, Explore, IsWithinLimits, Job, Replay, Upgrade, job_of};
ghost use Rattle.tool_words.specs.Limits.{default_budgets, plain_number, workers_limit};
ghost use Rattle.tool_words.specs.Plain.{has_no_hyphen};
ghost use Rattle.tool_words.specs.Region.{regions_said};

/// `explore` with a program, a folder and inputs has the job that these words name, with the default
/// budgets and workers, where none of them begins with a hyphen.
pub fn plain_words_name_their_job()
    ensures { (tool program out input : List ℕ) (inputs : List (List ℕ))
        → list_all has_no_hyphen (program ∷ out ∷ input ∷ inputs) ≡ true
        → length (input ∷ inputs) < 2 ^ 64
        → job_of (tool ∷ codes "explore" ∷ program ∷ out ∷ input ∷ inputs)
        ≡ option_map (λ regions. Explore program out regions default_budgets workers_limit.default)
        (regions_said (input ∷ inputs)) }
{}

/// `replay` with a program and a test has the job that these words name, where none of them begins with a
/// hyphen.
pub fn two_words_name_their_replay()
    ensures { (tool program test : List ℕ) → list_all has_no_hyphen (program ∷ test ∷ []) ≡ true
        → job_of (tool ∷ codes "replay" ∷ program ∷ test ∷ []) ≡ Some (Replay program test) }
{}

/// `upgrade` with a test and a file has the job that these words name, where none of them begins with a
/// hyphen.
pub fn two_words_name_their_upgrade()
    ensures { (tool test out : List ℕ) → list_all has_no_hyphen (test ∷ out ∷ []) ≡ true
        → job_of (tool ∷ codes "upgrade" ∷ test ∷ out ∷ []) ≡ Some (Upgrade test out) }
{}

/// `audit` with a program and a certificate has the job that these words name, where none of them begins with
/// a hyphen.
pub fn two_words_name_their_audit()
    ensures { (tool program certificate : List ℕ)
        → list_all has_no_hyphen (program ∷ certificate ∷ []) ≡ true
        → job_of (tool ∷ codes "audit" ∷ program ∷ certificate ∷ []) ≡ Some (Audit program certificate) }
{}

/// The numbers of a job are within their limits.
pub fn jobs_are_within_their_limits()
    ensures { (words : List (List ℕ)) (job : Job) → job_of words ≡ Some job → IsWithinLimits job }
{}

/// A number has one text that says it, which is what `{}` writes.
pub fn a_number_is_written_in_one_way()
    ensures { (text : List ℕ) (n : ℕ) → n < 2 ^ 64
        → (plain_number text ≡ Some n ↔ text ≡ decimal n) }
{}

/// Words whose second is neither `explore`, `replay`, `bench`, `upgrade`, `audit` nor an option have no job: there is no other
/// command, and `help` asks for help.
pub fn other_commands_have_no_job()
    ensures { (tool command : List ℕ) (rest : List (List ℕ)) → has_no_hyphen command ≡ true
        → command ≢ codes "explore" → command ≢ codes "replay" → command ≢ codes "bench"
        → command ≢ codes "upgrade" → command ≢ codes "audit" → job_of (tool ∷ command ∷ rest) ≡ None }
{}

/// Words that ask for help or for the version have no job.
pub fn calls_for_help_have_no_job()
    ensures long { (tool : List ℕ) (rest : List (List ℕ))
        → job_of (tool ∷ codes "--help" ∷ rest) ≡ None }
    ensures short { (tool : List ℕ) (rest : List (List ℕ))
        → job_of (tool ∷ codes "-h" ∷ rest) ≡ None }
    ensures version { (tool : List ℕ) (rest : List (List ℕ))
        → job_of (tool ∷ codes "--version" ∷ rest) ≡ None }
    ensures explore { (tool : List ℕ) (rest : List (List ℕ))
        → job_of (tool ∷ codes "explore" ∷ codes "--help" ∷ rest) ≡ None }
{}
