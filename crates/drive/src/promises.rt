ghost use Rattle.drive.specs.Medium.{medium};
ghost use Rattle.drive.specs.Promise.{FlushedSurvives, SparedSurvives, CutLeaves};
ghost use Rattle.drive.specs.Refusal.{TestsAsTold};

use crate::drives::Drive;

// What is refused, by facts.
pub fn tests_are_as_told()
    ensures as_told { TestsAsTold }
{}

// What a power cut leaves of any kind of drive.
pub fn drives_promise<D: Drive>()
    ensures flushed_survives { FlushedSurvives (medium D.ReadDrive.visible D.Drive.durable) }
    ensures spared_survives { SparedSurvives (medium D.ReadDrive.visible D.Drive.durable) }
    ensures cut_leaves { CutLeaves (medium D.ReadDrive.visible D.Drive.durable) }
{}
