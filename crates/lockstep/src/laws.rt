//! Laws of steps over buffers as steps of the machine: functions that do nothing, with contracts that are proved.
ghost use Rattle.lockstep.specs.Law.{ARunIsTheMachines, AStepIsTheMachines};

/// A step over a text of words is a step of the machine that runs the program that the words say.
pub fn a_step_is_the_machines()
    ensures { AStepIsTheMachines }
{}

/// As many steps over a text of words as one likes end as the machine does that may make as many.
pub fn a_run_is_the_machines()
    ensures { ARunIsTheMachines }
{}
