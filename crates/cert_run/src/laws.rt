//! What follows from the definitions alone.

ghost use Rattle.symk_io.specs.View.{Bytes};
ghost use Rattle.symk_task.specs.declared.parts.TaskParts.{TaskParts};
ghost use Rattle.symk_task.specs.Fits.{Fits};
ghost use Rattle.run_status.specs.declared.status.Status.TheVariants.{Refuted};
ghost use Rattle.cert_run.specs.Proofs.{IsUnsolvable, Refutes};

/// What may come as a refutation comes of tasks alone that have no plan, whoever wrote the certificate.
pub fn refuted_tasks_have_no_plan()
    ensures { (task : TaskParts) (bytes text : Bytes) → Fits task → Refutes task bytes Refuted text
        → IsUnsolvable task }
{}
