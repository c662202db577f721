//! The law: its function does nothing, and its contract is proved.
ghost use Rattle.elf_runs.specs.Law.{ARunOfAnExecutable};

/// Where an executable has a listing, as many steps over its words as one likes end as the run of that listing does
/// that may make as many.
pub fn a_run_of_an_executable_is_its_listings()
    ensures { ARunOfAnExecutable }
{}
