//! Laws of all command lines and of all plan files that you migrate. Each function does nothing: its contract is the
//! law.

ghost use Rattle.std.specs.Prelude.{◌≡◌};
ghost use Rattle.dl_plans.specs.Options as command;
ghost use Rattle.dl_migration.specs.LaterVersion.{MigratedIsTheSame, MigratedReadsTheSame};
ghost use Rattle.dl_plans.specs.MigratedAnswers.{MigratedAnswersAreEqual};
ghost use Rattle.dl_scope.specs.Faults as scope;

/// A command line lets through just the numbers of workers that [`serve`](dl_scope::serve) takes.
pub fn command_lines_and_serve_agree()
    ensures { command.most_workers ≡ scope.most_workers }
{}

/// If a tree reads as a plan file of an earlier version, then, migrated, it reads as one of the later version with the
/// same tables, plans and limits. A table of version 1 then has no limit of its own.
pub fn migrated_is_the_same()
    ensures { MigratedIsTheSame }
{}

/// The text of a plan file of an earlier version, migrated, reads as the same file in the later version, unless it is
/// too large to read.
pub fn migrated_reads_the_same()
    ensures { MigratedReadsTheSame }
{}

/// If a plan file of an earlier version primes no key, it and the migrated file have the same answers in all reports in
/// which no batch failed, for all numbers of workers, over the same database or over none.
pub fn migrated_answers_are_equal()
    ensures { MigratedAnswersAreEqual }
{
    dl_scope::laws::answers_are_equal();
}
