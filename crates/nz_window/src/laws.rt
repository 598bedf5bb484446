//! Laws of windows and of the order that medians are read off.
ghost use Rattle.nz_window.specs.Samples.{OrdersAll, WindowsStart, WindowsStay, BoundIsBounded};

/// The samples in order are all samples, and in order.
pub fn samples_are_ordered()
    ensures { OrdersAll }
{}

/// What is kept of any samples: at most 32 of each replica, each at most 10,000, and so is the bound.
pub fn windows_stay_small()
    ensures start { WindowsStart }
    ensures stay { WindowsStay }
    ensures bounded { BoundIsBounded }
{}
