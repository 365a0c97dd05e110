//! Laws of schedules, each a contract of a function that does nothing.

ghost use Rattle.resh_licence.specs.Laws.{EndsHaveCauses, LinksHaveCauses};
ghost use Rattle.resh_licence.specs.Laws.{EndsAreLicensed, LinksAreLicensed, FilesAreLicensed};
ghost use Rattle.resh_licence.specs.Laws.{LicensedByNone, CalmFilesLicenseNone, CalmNeverFails};
ghost use Rattle.resh_licence.specs.Laws.{EmptyPlanNeverFails, CalmFilesNeverFail, CalmLinksFailForMemory};
ghost use Rattle.resh_licence.specs.Laws.{StepsKeepPlans, SweepsKeepPlans, FilesKeepPlans};

/// In every schedule a failure has a cause among its events: a commit that failed, a call whose deliveries were lost,
/// or 64 crashes.
pub fn failures_have_causes()
    ensures ends { EndsHaveCauses }
    ensures links { LinksHaveCauses }
{}

/// In a schedule that keeps the plan a failure is licensed by the plan and the crashes that are free.
pub fn failures_are_licensed()
    ensures ends { EndsAreLicensed }
    ensures links { LinksAreLicensed }
    ensures files { FilesAreLicensed }
{}

/// Without a plan and without crashes nothing is licensed, so nothing fails.
pub fn calm_runs_never_fail()
    ensures none { LicensedByNone }
    ensures none_of_file { CalmFilesLicenseNone }
    ensures ends { CalmNeverFails }
    ensures schedules { EmptyPlanNeverFails }
    ensures files { CalmFilesNeverFail }
    ensures links { CalmLinksFailForMemory }
{}

/// What a file's steps and a sweep make from the opening state, with the lucks that the plan says, is a schedule that
/// keeps the plan.
pub fn steps_keep_plans()
    ensures step { StepsKeepPlans }
    ensures sweep { SweepsKeepPlans }
    ensures file { FilesKeepPlans }
{}
