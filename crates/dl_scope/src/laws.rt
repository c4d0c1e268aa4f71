//! Laws of what reports have, for every report. Each function does nothing: its contract is the law.

ghost use Rattle.dl_scope.specs.CarriedJobs.{EachIsCarried, JobsAreBatches};
ghost use Rattle.dl_scope.specs.EqualAnswers.{AnswersAreEqual};
ghost use Rattle.dl_scope.specs.OwnAnswers.{AnswersAreOwn, OwnAnswersAreOne};

/// The dispatches of a report's history hand out as many jobs as there are batches, even if batches were given up.
pub fn jobs_are_batches()
    ensures { JobsAreBatches }
{}

/// In a report of `serve`, as many jobs were sent as there are batches, as many were taken, and none is left.
pub fn each_is_carried()
    ensures { EachIsCarried }
{}

/// If no batch failed and no plan primes a key, each answer over tables is what its term gives by the tables alone.
pub fn answers_are_own()
    ensures { AnswersAreOwn }
{}

/// By the tables alone a term has at most one answer. So if no batch failed and no plan primes a key, the answer is the same
/// for every number of workers, for all limits, and whatever other plans you serve with it.
pub fn own_answers_are_one()
    ensures { OwnAnswersAreOne }
{
    dl_haxl::laws::gives_once();
    dl_haxl::laws::gives_for_ever();
}

/// Two reports over the same tables have the same answers if their plans evaluate the same terms at the same places, no
/// batch failed, and no plan primes a key. The workers, limits and batches may differ.
pub fn answers_are_equal()
    ensures { AnswersAreEqual }
{
    own_answers_are_one();
}
