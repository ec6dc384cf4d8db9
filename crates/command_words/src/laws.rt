//! What the words of a command line determine. There is nothing to run: the contract is the law.
ghost use Rattle.std.specs.Prelude.{◌≡◌, ℕ, List};
ghost use Rattle.command_words.specs.declared.jobs.Job.{Job};
ghost use Rattle.command_words.specs.Words.{IsJob};

/// The words of a command line ask for one job at most.
pub fn one_job_law()
    ensures { (words : List (List ℕ)) (job other : Job) → IsJob words job → IsJob words other →
        job ≡ other }
{}
