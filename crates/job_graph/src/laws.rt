//! Laws of jobs, over the definitions alone. The functions do nothing: their contracts are what is proved.

ghost use Rattle.job_graph.specs.Held.{JobIsHeld};

/// Every legal history that accepted the ids of a job with messages that carry its dependencies holds the job.
pub fn job_is_held()
    ensures { JobIsHeld }
{}
