//! What is known of a job that was read.
ghost use Rattle.std.specs.Prelude.{All, length};
ghost use Rattle.job_text.specs.Fits.{JobFits};
ghost use Rattle.job_text.specs.declared.job.Job.{Job};
ghost use Rattle.para_workers.specs.Pages.{IsSettable};

/// The paragraphs of a job that was read can be set.
pub fn paragraphs_of_a_job_can_be_set()
    ensures { (job : Job) → JobFits job → All (IsSettable (length job.fonts)) job.pars }
{}
