//! Laws of calls: the contracts of functions that do nothing.

ghost use Rattle.nfs_schedule.specs.Acquires.{AsksForEachOnce};
ghost use Rattle.nfs_schedule.specs.Courses.{CoursesAreFew};

/// While a worker's call meets no address that is taken and no want of memory, it asks the engine for just as many
/// addresses as its view grows by, beside the numbers that it is given.
pub fn calls_ask_once()
    ensures { AsksForEachOnce }
{}

/// Wherever a call is on its course, what it has read and what it wants lie among the addresses of the store and few
/// others, in every sound store that its view fits.
pub fn courses_are_few()
    ensures { CoursesAreFew }
{}
