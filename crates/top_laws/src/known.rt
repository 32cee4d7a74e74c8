//! Laws of the program's clauses over files whose contents are known.

ghost use Rattle.top_laws.specs.Known.{CompleteOverFiles, CutOverFiles, ExactOverFiles, JobOverFiles, LoadsAreFiles, OneLoading, UnreadOverFiles};

/// A law: what was read determines the loads.
pub fn reads_determine_the_loads()
    ensures { OneLoading }
{}

/// A law: if each read returned a piece of known files, each load is the file with its name, or both have more than 16
/// MiB.
pub fn loads_are_files()
    ensures { LoadsAreFiles }
{}

/// Laws: the clauses of `ptg_main` also hold over files whose contents are known, each under its name there. They
/// follow from those over what the reads returned, since the files denote what the loads denote.
pub fn over_known_files()
    ensures exact { ExactOverFiles }
    ensures complete { CompleteOverFiles }
    ensures unread { UnreadOverFiles }
    ensures cut { CutOverFiles }
    ensures of_job { JobOverFiles }
{}
