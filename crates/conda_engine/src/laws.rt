// What follows from the answers of commands.
ghost use Rattle.conda_engine.specs.Laws.{CreatesNoOther, IsAnswerCaused, HasStoppedAt, HoldsFronts, IsCompleteCommand, IsDoneWhole, IsDriveAnswer, IsDriveComplete, IsRunAnswer, IsRunComplete, KeepsOldReport, KeepsOtherFiles, MakesNothing, NeedsSchedule, OfDrive, OfEvery, OfRun, OnlyCounts, OpensNoOther, OpensNoSchedule};

/// What holds of every command.
pub fn of_every_command()
    ensures complete { OfEvery IsCompleteCommand }
    ensures created { OfEvery CreatesNoOther }
    ensures opened { OfEvery OpensNoOther }
{}

/// What an answer of `run` says.
pub fn of_run_answers()
    ensures answer { OfRun IsRunAnswer }
    ensures cause { OfRun IsAnswerCaused }
    ensures complete { OfRun IsRunComplete }
{}

/// What `run` leaves in its files.
pub fn of_run_files()
    ensures done { OfRun IsDoneWhole }
    ensures stopped { OfRun HasStoppedAt }
    ensures fronts { OfRun HoldsFronts }
    ensures others { OfRun KeepsOtherFiles }
{}

/// What `run` leaves alone where it was refused or stopped.
pub fn of_run_refusals()
    ensures unmade { OfRun MakesNothing }
    ensures unread { OfRun OpensNoSchedule }
    ensures unopened { OfRun NeedsSchedule }
    ensures report { OfRun KeepsOldReport }
{}

/// What an answer of `drive` says.
pub fn of_drive_answers()
    ensures answer { OfDrive IsDriveAnswer }
    ensures cause { OfDrive IsAnswerCaused }
    ensures complete { OfDrive IsDriveComplete }
    ensures later { OfDrive OnlyCounts }
{}

/// What `drive` leaves in its files.
pub fn of_drive_files()
    ensures done { OfDrive IsDoneWhole }
    ensures stopped { OfDrive HasStoppedAt }
    ensures fronts { OfDrive HoldsFronts }
    ensures others { OfDrive KeepsOtherFiles }
    ensures unopened { OfDrive NeedsSchedule }
    ensures report { OfDrive KeepsOldReport }
{}
