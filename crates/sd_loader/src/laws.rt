//! What holds of walks, on functions that do nothing: the contract is the law.
ghost use Rattle.sd_loader.specs.Walk.{WalksAreOne, KernelsAreOne};
ghost use Rattle.sd_loader.specs.Found.{KernelIsLoaded};

/// A path leads to one place, through one number of links.
pub fn walks_are_one()
    ensures { WalksAreOne }
{}

/// There is one kernel.
pub fn kernels_are_one()
    ensures { KernelsAreOne }
{}

/// What is loaded of the file to which the kernel's path leads is the kernel.
pub fn kernel_is_loaded()
    ensures { KernelIsLoaded }
{}
