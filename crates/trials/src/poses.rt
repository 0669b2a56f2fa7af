// Small tapes with their answers, all by the definitions that the contracts cite.
ghost use Rattle.trials.specs.Poses.{WorkedPoses};

pub fn worked_poses()
    ensures { WorkedPoses }
{}
