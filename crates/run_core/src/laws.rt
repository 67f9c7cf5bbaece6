//! What holds after every order of the workers' steps, as laws that compute nothing. A proof that needs them
//! calls the function.
ghost use Rattle.run_core.specs.Laws.{DrawnLaw, HistoryLaw, PublishedLaw};

/// Three laws of every list of events from the start, in whatever order the workers' steps come; nothing is
/// computed. The numbers drawn are those below some number, each once. A system that was published is that
/// of its fields, and stays in its place. The history of claims is legal: the first claims of each row, with
/// the replies that they were answered.
pub fn core_laws()
    ensures drawn { DrawnLaw }
    ensures published { PublishedLaw }
    ensures history { HistoryLaw }
{}
